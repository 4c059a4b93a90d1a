//! Laws of the text that is written from a policy and from an image.

ghost use Rattle.std.specs.Prelude.{List, ℕ, map, length, ◌+◌, ◌≤◌, ◌≡◌, ◌↔◌, true, Ok, Some};
ghost use Rattle.policy.specs.Limits.{Acceptable};
ghost use Rattle.policy.specs.Line.{PolicyLine};
ghost use Rattle.policy.specs.Policy.{Policy};
ghost use Rattle.lexer.specs.Lines.{lines_of, tokens_of};
ghost use Rattle.rule_text.specs.Text.{read_text, policy_of};
ghost use Rattle.printer.specs.Printed.{joined_by, line_bytes, lines_text, longest_text_for, text_of};
ghost use Rattle.word.specs.Word.{Bytes};
ghost use Rattle.layout.specs.Layout.{known_form};
ghost use Rattle.image.specs.Held.{policy_in};
ghost use Rattle.image.specs.Load.{load, Contents};
ghost use Rattle.decompile.specs.Decompile.{decompiled};
ghost use Rattle.guarantees.specs.Claims.{CompilesTo, DecompilesTo};

/// A written line is its tokens with one space between each two, and no space else.
#[tactic(auto, using(printer::proofs::SplitLaws::one_space))]
pub fn one_space()
    ensures { (l : PolicyLine) → line_bytes l ≡ joined_by 32 (tokens_of (line_bytes l)) }
{}

/// The lines of a written text are its written lines, one behind another.
#[tactic(auto, using(printer::proofs::SplitLaws::text_lines))]
pub fn text_lines()
    ensures { (ls : List PolicyLine) → lines_of (lines_text ls) ≡ map line_bytes ls }
{}

/// What is written from a policy within the limits is accepted and has that policy.
#[tactic(auto, using(printer::proofs::Printing::text_policy))]
pub fn text_policy()
    ensures { (form : ℕ) (p : Policy) → Acceptable form p → policy_of form (text_of p) ≡ Some p }
{}

/// No two policies within the limits, of whichever forms, are written as the same text.
#[tactic(auto, using(printer::proofs::Printing::text_injective))]
pub fn text_injective()
    ensures { (form form' : ℕ) (p q : Policy) → Acceptable form p → Acceptable form' q → text_of p ≡ text_of q → p ≡ q }
{}

/// The policies within the limits of a form are exactly those of texts that are accepted for it.
pub fn acceptable_texts()
    ensures { (form : ℕ) (p : Policy) → Acceptable form p ↔ ((text : List ℕ) × (read_text form text ≡ Ok p)) }
{}

/// An image that the loader takes is never refused a buffer of 28,224 bytes or more, or in the forms 1 and 2 of 27,968.
pub fn never_short()
    ensures { (image buffer : List ℕ) → Bytes image → (contents : Contents) → load image ≡ Ok contents → longest_text_for contents.form ≤ length buffer → (decompiled image buffer).answer ≡ Ok (length (text_of (policy_in image))) }
{}

/// In each form some accepted text compiles to an image whose written text has so many bytes: no smaller buffer is enough for all.
#[tactic(auto, using(crate::proofs::RoundTrip::bound_reached))]
pub fn bound_reached()
    ensures { (form : ℕ) → known_form form ≡ true → (text : List ℕ) × ((image : List ℕ) × ((written : List ℕ) × (CompilesTo form text image × (DecompilesTo image written × (length written ≡ longest_text_for form))))) }
{}
