//! Laws of reading texts and epoch lines.

ghost use Rattle.policy.specs.Fault.{refusal};
ghost use Rattle.std.specs.Prelude.{List, [], ◌∷◌, ◌++◌, Contains, length, ℕ, ◌<◌, ◌≤◌, ℤ, ◌≡◌, ◌⊎◌, ◌↔◌, true, false, nat_eq, Ok, Err, Some, None};
ghost use Rattle.policy.specs.declared.fault.Fault.{Fault};
ghost use Rattle.policy.specs.declared.fault.Refusal.{Refusal};
ghost use Rattle.policy.specs.Epoch.{reading_value};
ghost use Rattle.policy.specs.declared.epoch.Epoch.{Epoch};
ghost use Rattle.std.specs.List.{list_all, list_any};
ghost use Rattle.policy.specs.Limits.{allowed};
ghost use Rattle.policy.specs.Policy.{Policy};
ghost use Rattle.policy.specs.Set.{has_event, has_reading};
ghost use Rattle.policy.specs.Line.{PolicyLine, comparisons_of};
ghost use Rattle.policy.specs.declared.comparison.Comparison.{Comparison};
ghost use Rattle.lexer.specs.Lines.{lines_of, tokens_of, first_line, behind_line, without_end};
ghost use Rattle.lexer.specs.Token.{Token, comparison_of};
ghost use Rattle.lexer.specs.Byte.{is_hex_digit};
ghost use Rattle.lexer.specs.Number.{decimal_of, hex_number, pattern_digits, constant_of};
ghost use Rattle.syntax.specs.Grammar.{line_from};
ghost use Rattle.syntax.specs.Judge.{line_answer};
ghost use Rattle.rule_text.specs.Answer.{text_read, texts_read};
ghost use Rattle.rule_text.specs.Text.{read_texts, policy_of, policy_of_texts};
ghost use Rattle.epoch_line.specs.Epoch.{Item, value, at_equals, items_of, given_by, epoch_limit, read_epoch};
ghost use Rattle.acceptance.specs.FirstFault.{TextAccepted, TextsFault, EpochFault};
ghost use Rattle.acceptance.specs.Named.{named_by};
ghost use Rattle.acceptance.specs.OneLine.{is_skipped, LineSkipped, LineAccepted, LineRefused};
ghost use Rattle.acceptance.specs.Texts.{Joint};
ghost use Rattle.acceptance.specs.Written.{IsLine, IsWritten};
ghost use Rattle.acceptance.specs.Patterns.{prefixed, IsPattern, HasWord, Hexadecimal};

/// What is read of a line's tokens is in the grammar, and nothing in the grammar is refused: tokens are read as a line exactly if they are written as one.
pub fn grammar_exact()
    ensures { (ts : List Token) (l : PolicyLine) → (line_from ts ≡ Some l) ↔ IsLine ts l }
{}

/// A line is refused exactly for the first of these: its shape, a number out of range, too many parts, an event or an action twice.
#[tactic(auto, using(acceptance::proofs::OneLine::line_refused_exactly))]
pub fn line_refused_exactly()
    ensures { (form : ℕ) (line : List ℕ) (f : Fault) → (line_answer form line ≡ Err f) ↔ LineRefused form line f }
{}

/// A line is accepted as a rule or a constraint exactly if it is written as that one, in range, within the counts and with no repeat.
pub fn line_accepted_exactly()
    ensures { (form : ℕ) (line : List ℕ) (l : PolicyLine) → (line_answer form line ≡ Ok (Some l)) ↔ LineAccepted form line l }
{}

/// A line is skipped exactly if it has no token, or its first token begins with `#`.
#[tactic(auto, using(acceptance::proofs::OneLine::line_skipped_exactly))]
pub fn line_skipped_exactly()
    ensures { (form : ℕ) (line : List ℕ) → (line_answer form line ≡ Ok None) ↔ LineSkipped line }
{}

/// A line that is written right, with a comparison with a constant of more than eight hexadecimal digits, is refused for a number out of range, whatever else
/// it has.
pub fn wide_constant_refused()
    ensures { (form : ℕ) (line : List ℕ) (l : PolicyLine) → IsWritten line l → allowed form l ≡ true → (ds : List ℕ) → list_all is_hex_digit ds ≡ true → pattern_digits < length ds → (r q : Token) (c : Comparison) → comparison_of r q (prefixed ds) ≡ Some c → (before after : List Comparison) → comparisons_of l ≡ before ++ c ∷ after → line_answer form line ≡ Err Fault.OutOfRange }
{}

/// The same by the token alone: a line that is written right and has, at any place, a token of `0x` and more than eight digits.
pub fn wide_token_refused()
    ensures { (form : ℕ) (ds line : List ℕ) → Contains (tokens_of line) (prefixed ds) → list_all is_hex_digit ds ≡ true → pattern_digits < length ds → (l : PolicyLine) → IsWritten line l → allowed form l ≡ true → line_answer form line ≡ Err Fault.OutOfRange }
{}

/// A line that has, at any place, the token `0x`, or one of `0x` and bytes of which some one is no hexadecimal digit, has a wrong shape, unless it is skipped.
pub fn bare_prefix_refused()
    ensures { (form : ℕ) (ds line : List ℕ) → Contains (tokens_of line) (prefixed ds) → (ds ≡ []) ⊎ (list_all is_hex_digit ds ≡ false) → is_skipped (tokens_of line) ≡ false → line_answer form line ≡ Err Fault.Syntax }
{}

/// One to eight hexadecimal digits behind `0x` are the constant whose word of 32 bits in two's complement they are.
#[tactic(auto, using(acceptance::proofs::Patterns::pattern_read))]
pub fn pattern_read()
    ensures { (ds : List ℕ) → IsPattern ds → (k : ℤ) × (constant_of (prefixed ds) ≡ Some k) × HasWord k (hex_number ds) }
{}

/// Every constant is a decimal one, with that value, or `0x` and one or more hexadecimal digits.
#[tactic(auto, using(acceptance::proofs::Patterns::constant_forms))]
pub fn constant_forms()
    ensures { (t : Token) (k : ℤ) → constant_of t ≡ Some k → (decimal_of t ≡ Some k) ⊎ Hexadecimal t }
{}

/// The lines of a text are its first line, up to the first line end, and the lines of what stands behind that end.
#[tactic(auto, using(syntax::proofs::AnswerLaws::lines_here))]
pub fn lines_go_on()
    ensures { (text : List ℕ) → 0 < length text → lines_of text ≡ first_line text ∷ lines_of (without_end (behind_line text)) }
{}

/// A text has a policy exactly if it is short enough and each of its lines is skipped, or accepted while there is room for one more of its kind.
pub fn text_accepted_exactly()
    ensures { (form : ℕ) (text : List ℕ) (p : Policy) → (policy_of form text ≡ Some p) ↔ TextAccepted form text p }
{}

/// Two texts are refused exactly for their first fault: the maker's text before the site's, each for its length before its lines, and the first line that
/// is neither skipped nor accepted within the limits, which are counted over both texts.
#[tactic(auto, using(acceptance::proofs::FirstFault::texts_refused_exactly))]
pub fn texts_refused_exactly()
    ensures { (form : ℕ) (maker site : List ℕ) (r : Refusal) → (read_texts form maker site ≡ Err r) ↔ TextsFault form maker site r }
{}

/// An epoch line is refused exactly for the first test that it fails: its length, its shape, its ranges, a reading that is given twice.
#[tactic(auto, using(acceptance::proofs::FirstFault::epoch_refused_exactly))]
pub fn epoch_refused_exactly()
    ensures { (line : List ℕ) (refusal : Refusal) → (read_epoch line ≡ Err refusal) ↔ EpochFault line refusal }
{}

/// An epoch line has a wrong shape where a value in it, behind the first `=` of a token, is `0x` alone, or `0x` and bytes of which some one is no
/// hexadecimal digit, whatever else the line has.
#[tactic(auto, using(acceptance::proofs::Prefixed::epoch_bare_prefix_refused))]
pub fn epoch_bare_prefix_refused()
    ensures { (t : Token) (left ds : List ℕ) → at_equals t ≡ Some (record { left = left; right = prefixed ds }) → (line : List ℕ) → length line ≤ epoch_limit → Contains (tokens_of line) t → (ds ≡ []) ⊎ (list_all is_hex_digit ds ≡ false) → read_epoch line ≡ Err (refusal Fault.EpochSyntax 0) }
{}

/// An epoch line of items, in which a value is `0x` and more than eight hexadecimal digits, is out of range, whatever else it has.
#[tactic(auto, using(acceptance::proofs::Prefixed::epoch_wide_constant_refused))]
pub fn epoch_wide_constant_refused()
    ensures { (t : Token) (left ds : List ℕ) → at_equals t ≡ Some (record { left = left; right = prefixed ds }) → (line : List ℕ) → length line ≤ epoch_limit → Contains (tokens_of line) t → list_all is_hex_digit ds ≡ true → pattern_digits < length ds → list_any (nat_eq 10) line ≡ false → (is : List Item) → items_of (tokens_of line) ≡ Some is → read_epoch line ≡ Err (refusal Fault.EpochRange 0) }
{}

/// With an empty site's text two texts have the answer of the maker's alone.
#[tactic(auto, using(acceptance::proofs::Texts::read_alone))]
pub fn read_alone()
    ensures { (form : ℕ) (text : List ℕ) → texts_read form text [] ≡ text_read form text }
{}

/// Two texts have a policy exactly if each has one alone and both together are within the limits: the maker's lines, then the site's.
pub fn texts_joint()
    ensures { (form : ℕ) (maker site : List ℕ) (p : Policy) → (policy_of_texts form maker site ≡ Some p) ↔ Joint form maker site p }
{}

/// On an accepted line an event has occurred exactly if the line names it.
#[tactic(auto, using(acceptance::proofs::Named::line_names))]
pub fn line_names()
    ensures { (e : Epoch) (line : List ℕ) (is : List Item) → items_of (tokens_of line) ≡ Some is → read_epoch line ≡ Ok e → (n : ℕ) → has_event e.events (record { 0 = n }) ≡ list_any (nat_eq n) (named_by is) }
{}

/// On an accepted line a reading that is given has the value that stands there.
pub fn line_gives()
    ensures { (e : Epoch) (line : List ℕ) (is : List Item) → items_of (tokens_of line) ≡ Some is → read_epoch line ≡ Ok e → (n : ℕ) (k : ℤ) → Contains is (value n k) → reading_value e.readings (record { 0 = n }) ≡ Some k }
{}

/// On an accepted line a reading that the line does not give is missing.
#[tactic(auto, using(acceptance::proofs::Given::line_lacks))]
pub fn line_lacks()
    ensures { (e : Epoch) (line : List ℕ) (is : List Item) → items_of (tokens_of line) ≡ Some is → read_epoch line ≡ Ok e → (n : ℕ) → list_any (nat_eq n) (given_by is) ≡ false → has_reading e.readings.given (record { 0 = n }) ≡ false }
{}
