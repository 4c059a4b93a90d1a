//! Word 0 of an image: its form, and how many words each part has.
ghost use Rattle.std.specs.Prelude.{◌≡◌, ◌%◌};
ghost use Rattle.layout.specs.Header.{pack_header, form_of, rule_count_of, constraint_count_of};

/// Word 0, of counts that fit their fields.
#[tactic(auto, unfolding(crate::specs::Header::pack_header))]
pub fn header(form: u8, rule_words: usize, constraint_words: usize) -> u32
    ensures { result ≡ pack_header form (rule_words % 4096) (constraint_words % 4096) }
{
    (form as u32) * 0x0100_0000
        + ((rule_words % 4096) as u32) * 0x1000
        + ((constraint_words % 4096) as u32)
}

pub fn form_of(header: u32) -> u8
    ensures { result ≡ form_of header }
{
    ((header >> 24) % 256) as u8
}

pub fn rule_words_of(header: u32) -> u32
    ensures { result ≡ rule_count_of header }
{
    (header >> 12) % 4096
}

pub fn constraint_words_of(header: u32) -> u32
    ensures { result ≡ constraint_count_of header }
{
    header % 4096
}
