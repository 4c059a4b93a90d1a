//! What depends on the form of an image: whether it is known, and how many check words there are.
ghost use Rattle.std.specs.Prelude.{◌≡◌, ◌≤◌};
ghost use Rattle.layout.specs.Layout.{known_form, check_count};

// The last form that there is.
const NEWEST_FORM: u8 = 5;

/// Whether there are images of this form.
#[tactic(auto, unfolding(crate::specs::Layout::known_form))]
pub fn is_known_form(form: u8) -> bool
    ensures { result ≡ known_form form }
{
    1 <= form && form <= NEWEST_FORM
}

/// How many check words an image of this form has.
#[tactic(auto, unfolding(crate::specs::Layout::check_count))]
pub fn check_count(form: u8) -> usize
    ensures count { result ≡ check_count form }
    ensures few { result ≤ 2 }
{
    if form == 1 { 1 } else { 2 }
}
