// A line in words.
ghost use Rattle.std.specs.Prelude.{◌≡◌, not, ◌==◌};
ghost use Rattle.std.specs.List.{position};
ghost use Rattle.std.specs.Char.{is_ascii_whitespace};
ghost use Rattle.script.specs.Words.{without_comment, first_word, after_word, has_no_word};

/// The line without its comment.
pub fn uncommented(line: &[u8]) -> &[u8]
    ensures { result.now ≡ without_comment line.now }
{
    let end = comment(line).unwrap_or(line.len());
    &line[..end]
}

/// The first word of a text, and what comes after it. The word is empty where there is none.
pub fn split_word(text: &[u8]) -> (&[u8], &[u8])
    ensures word { result.0.now ≡ first_word text.now }
    ensures rest { result.1.now ≡ after_word text.now }
{
    let start = letter(text).unwrap_or(text.len());
    let text = &text[start..];
    let end = blank(text).unwrap_or(text.len());
    (&text[..end], &text[end..])
}

/// Whether a text has no word.
pub fn is_blank(text: &[u8]) -> bool
    ensures { result ≡ has_no_word text.now }
{
    let (word, _) = split_word(text);
    word.is_empty()
}

// Where the comment begins.
fn comment(line: &[u8]) -> Option<usize>
    ensures { result ≡ position (λ b. b == 35) line.now }
{
    line.iter().position(|b| *b == b'#')
}

// Where the first blank is.
fn blank(text: &[u8]) -> Option<usize>
    ensures { result ≡ position is_ascii_whitespace text.now }
{
    text.iter().position(|b| b.is_ascii_whitespace())
}

// Where the first byte is that is no blank.
fn letter(text: &[u8]) -> Option<usize>
    ensures { result ≡ position (λ b. not (is_ascii_whitespace b)) text.now }
{
    text.iter().position(|b| !b.is_ascii_whitespace())
}
