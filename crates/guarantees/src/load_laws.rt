//! Laws of what the loader takes and refuses, by the lines whose words stand in the bytes.

ghost use Rattle.policy.specs.Fault.{refusal};
ghost use Rattle.std.specs.Prelude.{List, ℕ, ◌+◌, ◌∷◌, ◌↔◌, ◌≡◌, length, drop, Err, Ok, Some};
ghost use Rattle.word.specs.Word.{Bytes};
ghost use Rattle.policy.specs.Line.{PolicyLine, part_get};
ghost use Rattle.policy.specs.declared.fault.Refusal.{Refusal};
ghost use Rattle.policy.specs.declared.line.Part.{Part};
ghost use Rattle.layout.specs.Layout.{line_words};
ghost use Rattle.decode.specs.Stands.{Stands, AreLines};
ghost use Rattle.decode.specs.Decode.{line_at};
ghost use Rattle.image.specs.Lines.{lines_from};
ghost use Rattle.image.specs.Held.{lines_held};
ghost use Rattle.image.specs.Load.{Contents, load};
ghost use Rattle.image.specs.Walk.{lines_left, lines_behind};
ghost use Rattle.exactness.specs.ImageFault.{ImageFault, NoLineAt};
ghost use Rattle.guarantees.specs.Claims.{SomeText};

/// Bytes are refused as an image exactly for the first of the faults 7 to 11 that they have, at its location.
#[tactic(auto, using(exactness::proofs::Exact::image_refused_exactly))]
pub fn image_refused_exactly()
    ensures { (bytes : List ℕ) (refusal : Refusal) → (load bytes ≡ Err refusal) ↔ ImageFault bytes refusal }
{}

/// No bytes have two such faults, or one at two locations.
#[tactic(auto, using(exactness::proofs::Exact::one_image_fault))]
pub fn one_image_fault()
    ensures { (bytes : List ℕ) (one other : Refusal) → ImageFault bytes one → ImageFault bytes other → one ≡ other }
{}

/// Bytes have a fault as an image exactly if no accepted text compiles to them.
pub fn faulty_exactly()
    ensures { (bytes : List ℕ) → Bytes bytes → ((refusal : Refusal) × ImageFault bytes refusal) ↔ (¬ SomeText bytes) }
{}

/// A line is found at the start of words exactly if it stands there.
pub fn line_found_exactly()
    ensures { (form : ℕ) (part : Part) (words : List ℕ) (line : PolicyLine) → (line_at form part words ≡ Some line) ↔ Stands form part words line }
{}

/// At most one line of a part stands at the start of words.
#[tactic(auto, using(decode::proofs::DecodeLaws::one_line_stands))]
pub fn one_line_stands()
    ensures { (form : ℕ) (part : Part) (words : List ℕ) (one other : PolicyLine) → Stands form part words one → Stands form part words other → one ≡ other }
{}

/// The lines of a part are found exactly if its words are theirs, from end to end, and there is room for so many.
pub fn part_whole_exactly()
    ensures { (form : ℕ) (part : Part) (room from : ℕ) (words : List ℕ) (lines : List PolicyLine) → (lines_from form part room from words ≡ Ok lines) ↔ AreLines form part room words lines }
{}

/// A location in a part is told exactly if there are whole lines up to it and none fits there.
pub fn part_fault_exactly()
    ensures { (form : ℕ) (part : Part) (room from : ℕ) (words : List ℕ) (location : ℕ) → (lines_from form part room from words ≡ Err location) ↔ NoLineAt form part room from words location }
{}

/// Going over words, where a line of either part stands it comes first, and then what comes from behind its words on.
#[tactic(auto, using(image::proofs::GivenLaws::standing_given))]
pub fn standing_given()
    ensures { (form : ℕ) (part : Part) (words : List ℕ) (at : ℕ) (line : PolicyLine) → Stands form part (drop at words) line → lines_left words at ≡ line ∷ lines_left words (at + length (line_words line)) }
{}

/// Going over the words of a part of an image that the loader takes, exactly the lines of that part of the policy that it holds come, in order.
#[tactic(auto, using(image::proofs::HeldLaws::held_given))]
pub fn held_given()
    ensures { (bytes : List ℕ) (contents : Contents) → load bytes ≡ Ok contents → (part : Part) → lines_behind 0 (part_get contents.parts part) ≡ lines_held bytes part }
{}
