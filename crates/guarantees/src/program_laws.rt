//! Laws of what the programs print: whole outputs, for whole inputs.

ghost use Rattle.std.specs.Prelude.{List, ℕ, ◌≡◌, Some};
ghost use Rattle.policy.specs.Policy.{Policy};
ghost use Rattle.codegen.specs.Compile.{newest_form};
ghost use Rattle.rule_text.specs.Text.{policy_of, policy_of_texts};
ghost use Rattle.printer.specs.Printed.{text_of};
ghost use Rattle.session.specs.Listed.{listed, listed_texts};
ghost use Rattle.session.specs.Printed.{printed};
ghost use Rattle.dump.specs.Dump.{restored};
ghost use Rattle.guarantees.specs.Output.{machine_prints, fetched};

/// For every input, the engine prints what the reference machine answers, refused texts and refused lines included: one line for each epoch, in the mode that the input picks.
#[tactic(auto, using(crate::proofs::Output::output_agrees))]
pub fn output_agrees()
    ensures { (input : List ℕ) → printed input ≡ machine_prints fetched input }
{}

/// Of what the compiler prints for an accepted text, the decompiler prints the text of the text's policy.
#[tactic(auto, using(crate::proofs::Pipe::listing_restored))]
pub fn listing_restored()
    ensures { (text : List ℕ) (p : Policy) → policy_of newest_form text ≡ Some p → restored (listed text) ≡ text_of p }
{}

/// The same of what the compiler prints for a pair of texts.
#[tactic(auto, using(crate::proofs::Pipe::texts_listing_restored))]
pub fn texts_listing_restored()
    ensures { (maker site : List ℕ) (p : Policy) → policy_of_texts newest_form maker site ≡ Some p → restored (listed_texts maker site) ≡ text_of p }
{}

/// For what the decompiler prints of an accepted text's listing, the compiler prints that listing again.
#[tactic(auto, using(crate::proofs::Pipe::listed_again))]
pub fn listed_again()
    ensures { (text : List ℕ) (p : Policy) → policy_of newest_form text ≡ Some p → listed (restored (listed text)) ≡ listed text }
{}

/// The same of the listing of a pair of texts.
#[tactic(auto, using(crate::proofs::Pipe::texts_listed_again))]
pub fn texts_listed_again()
    ensures { (maker site : List ℕ) (p : Policy) → policy_of_texts newest_form maker site ≡ Some p → listed (restored (listed_texts maker site)) ≡ listed_texts maker site }
{}
