// A line of five words, cut at its spaces. The words borrow the line.
ghost use Rattle.std.specs.Prelude.{◌≡◌, [], ◌∷◌, MatchOption};
ghost use Rattle.std.specs.Option.{option_map};
ghost use Rattle.questions.specs.Words.{split_words, five_words, all_filled, parts, unended};

// The five words of a question, in the order of the line.
#[derive(Clone, Copy)]
pub struct Words<'a> {
    pub cipher: &'a [u8],
    pub operation: &'a [u8],
    pub key: &'a [u8],
    pub start: &'a [u8],
    pub text: &'a [u8],
}

const SPACE: u8 = b' ';

// The words of a line that is five words, none empty, with one space between two neighbours and nothing else.
#[tactic(auto, unfolding(crate::specs::Words::five_words))]
pub fn five_words(line: &[u8]) -> Option<Words<'_>>
    ensures { option_map parts result ≡ five_words line.now }
{
    let (cipher, rest) = cut(line)?;
    let (operation, rest) = cut(rest)?;
    let (key, rest) = cut(rest)?;
    let (start, text) = cut(rest)?;
    let words = Words {
        cipher,
        operation,
        key,
        start,
        text,
    };
    match cut(text) {
        // A sixth word.
        Some(_) => None,
        None => words.are_filled().then_some(words),
    }
}

impl Words<'_> {
    // Whether none of the words is empty.
    fn are_filled(&self) -> bool
        ensures { result ≡ all_filled (parts self.now) }
    {
        let words = [self.cipher, self.operation, self.key, self.start, self.text];
        words.iter().all(|word| !word.is_empty())
    }
}

// What stands before the first space and what stands after it; nothing where there is no space.
fn cut(text: &[u8]) -> Option<(&[u8], &[u8])>
    ensures { MatchOption result (split_words text.now ≡ text.now ∷ []) (λ p. split_words text.now ≡ p.0.now ∷ split_words p.1.now) }
{
    let i = text.iter().position(|c| *c == SPACE)?;
    Some((&text[..i], &text[i + 1..]))
}

// A line without the newline that ends it; the last line of an input may have none.
pub fn without_newline(line: &[u8]) -> &[u8]
    ensures { result.now ≡ unended line.now }
{
    line.strip_suffix(b"\n").unwrap_or(line)
}
