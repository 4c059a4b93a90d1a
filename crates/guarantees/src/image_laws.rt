//! Laws of images and of the texts written back from them.

ghost use Rattle.std.specs.Prelude.{List, ℕ, ◌↔◌, ◌≡◌, ◌++◌, drop, length, ◌≤◌, false, Ok, Err};
ghost use Rattle.word.specs.Word.{Bytes, words_of};
ghost use Rattle.layout.specs.Layout.{known_form};
ghost use Rattle.image.specs.Check.{form_byte, weights_right};
ghost use Rattle.policy.specs.Fill.{refuse};
ghost use Rattle.guarantees.specs.Claims.{SomeText, CompilesTo, TextsCompileTo, DecompilesTo};
ghost use Rattle.image.specs.Load.{load, Contents};
ghost use Rattle.exactness.specs.Exact.{Checked, Weighed};
ghost use Rattle.policy.specs.declared.fault.Fault.{Fault};
ghost use Rattle.policy.specs.Fault.{refusal};
ghost use Rattle.codegen.specs.Written.{ImageWritten, TextsImageWritten, written_in, written_by};
ghost use Rattle.codegen.specs.Compile.{compiled, compiled_texts};
ghost use Rattle.rule_text.specs.Text.{policy_of, policy_of_texts};
ghost use Rattle.image.specs.Held.{policy_in};
ghost use Rattle.printer.specs.Printed.{text_of};

/// The loader takes exactly the images that some accepted text compiles to, in some form.
pub fn taken_exactly()
    ensures { (bytes : List ℕ) → Bytes bytes → ((contents : Contents) × (load bytes ≡ Ok contents)) ↔ SomeText bytes }
{}

/// Fault 16 is given exactly where the checks 7 to 10 pass and the weighted sum is wrong.
#[tactic(auto, using(exactness::proofs::Exact::weights_exactly))]
pub fn weights_exactly()
    ensures { (bytes : List ℕ) → (load bytes ≡ Err (refusal Fault.ImageWeightedSum 0)) ↔ (Checked bytes × (weights_right (words_of bytes) ≡ false)) }
{}

/// Fault 11 is given exactly where the checks before it pass, 16 among them, and no accepted text compiles to the bytes.
pub fn body_exactly()
    ensures { (bytes : List ℕ) → Bytes bytes → ((location : ℕ) × (load bytes ≡ Err (refusal Fault.ImageBody location))) ↔ (Weighed bytes × ¬ SomeText bytes) }
{}

/// A compilation to an unknown form is refused for that, whatever the texts and the buffer are, and writes no byte.
pub fn form_refused()
    ensures { (form : ℕ) → known_form form ≡ false → (maker site buffer : List ℕ) → compiled_texts form maker site buffer ≡ refuse (refusal Fault.ImageForm 0) buffer }
{}

/// A compilation that answers a size has written just the image of the text's policy in the form asked for; loading it yields that policy, and compiling that yields the bytes again.
pub fn image_written()
    ensures { (form : ℕ) (text buffer : List ℕ) (size : ℕ) → (compiled form text buffer).answer ≡ Ok size → ImageWritten form text buffer size }
{}

/// In each form two texts give the same image exactly if they have the same rules in the same order and the same constraints in theirs.
#[tactic(auto, using(codegen::proofs::Compilation::same_images))]
pub fn same_images()
    ensures { (form : ℕ) (s t out out' : List ℕ) (m n : ℕ) → (compiled form s out).answer ≡ Ok m → (compiled form t out').answer ≡ Ok n → (written_in form m s out ≡ written_in form n t out') ↔ (policy_of form s ≡ policy_of form t) }
{}

/// The same of a pair of texts compiled as one: a compilation that answers a size has written just the image of their policy.
pub fn texts_written()
    ensures { (form : ℕ) (maker site buffer : List ℕ) (size : ℕ) → (compiled_texts form maker site buffer).answer ≡ Ok size → TextsImageWritten form maker site buffer size }
{}

/// Two pairs of texts give the same image exactly if each pair as one has the same rules in the same order and the same constraints in theirs.
#[tactic(auto, using(codegen::proofs::Compilation::pairs_same_images))]
pub fn pairs_same_images()
    ensures { (form : ℕ) (maker site maker' site' out out' : List ℕ) (m n : ℕ) → (compiled_texts form maker site out).answer ≡ Ok m → (compiled_texts form maker' site' out').answer ≡ Ok n → (written_by m (compiled_texts form maker site out) ≡ written_by n (compiled_texts form maker' site' out')) ↔ (policy_of_texts form maker site ≡ policy_of_texts form maker' site') }
{}

/// Compiling the text of what was loaded to the form that the loader answers yields the bytes that were loaded.
#[tactic(auto, using(crate::proofs::Exactness::loaded_compiles))]
pub fn loaded_compiles()
    ensures { (bytes : List ℕ) → Bytes bytes → (contents : Contents) → load bytes ≡ Ok contents → CompilesTo contents.form (text_of (policy_in bytes)) bytes }
{}

/// Compiling the text that was written from an image to the image's form yields the image, byte for byte, in any buffer that has room.
#[tactic(auto, using(crate::proofs::RoundTrip::text_recompiles))]
pub fn text_recompiles()
    ensures { (image text : List ℕ) → Bytes image → DecompilesTo image text → (buffer : List ℕ) → length image ≤ length buffer → ((compiled (form_byte (words_of image)) text buffer).answer ≡ Ok (length image)) × ((compiled (form_byte (words_of image)) text buffer).buffer ≡ image ++ drop (length image) buffer) }
{}

/// In whichever forms, two texts are written back as the same text exactly if they have the same rules in the same order and the same constraints in theirs.
pub fn same_texts()
    ensures { (form form' : ℕ) (s t i j u v : List ℕ) → CompilesTo form s i → CompilesTo form' t j → DecompilesTo i u → DecompilesTo j v → (u ≡ v) ↔ (policy_of form s ≡ policy_of form' t) }
{}

/// Two pairs of texts are written back as the same text exactly if each pair as one has the same rules in the same order and the same constraints in theirs.
pub fn pairs_same_texts()
    ensures { (form form' : ℕ) (maker site maker' site' i j u v : List ℕ) → TextsCompileTo form maker site i → TextsCompileTo form' maker' site' j → DecompilesTo i u → DecompilesTo j v → (u ≡ v) ↔ (policy_of_texts form maker site ≡ policy_of_texts form' maker' site') }
{}
