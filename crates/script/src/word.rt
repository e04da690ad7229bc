// How a line falls into words.
ghost use Rattle.std.specs.Prelude.{◌≡◌, IfSome, option_map};
ghost use Rattle.script.specs.Words.{is_blank, words, first_of, from_word, word_at, after_word};

// What stands between words.
fn is_blank(byte: u8) -> bool
    ensures { result ≡ is_blank byte }
{
    byte == b' ' || byte == b'\t'
}

// The line from its first word on.
pub(crate) fn skip_blanks(line: &[u8]) -> &[u8]
    ensures { result.now ≡ from_word line.now }
{
    let mut rest = line;
    while let [first, after @ ..] = rest {
        if !is_blank(*first) {
            break;
        }
        rest = after;
    }
    rest
}

// The word that a line begins with, and what follows it.
fn cut_word(line: &[u8]) -> (&[u8], &[u8])
    ensures word { result.0.now ≡ word_at line.now }
    ensures rest { result.1.now ≡ after_word line.now }
{
    for (i, byte) in line.iter().enumerate() {
        if is_blank(*byte) {
            return line.split_at(i);
        }
    }
    (line, &[])
}

// The first word of a line, and what follows it.
pub(crate) fn next_word(line: &[u8]) -> Option<(&[u8], &[u8])>
    ensures words { option_map (λ x. (x.0.now, words x.1.now)) result ≡ first_of (words line.now) }
    ensures rest { IfSome result (λ x. x.1.now ≡ after_word (from_word line.now)) }
{
    let line = skip_blanks(line);
    if line.is_empty() {
        return None;
    }
    Some(cut_word(line))
}
