// A text in parts: where a part ends, and what its words say.
ghost use Rattle.std.specs.Prelude.{◌≡◌, cond, [], ◌∷◌, Some, None};
ghost use Rattle.std.specs.Iterator.{YieldsFirstRef, item_count};
ghost use Rattle.routes.specs.Route.{same};
ghost use Rattle.words.specs.Scan.{index_of};
ghost use Rattle.words.specs.Text.{lines, words, number_of, hall_word, costly_kind, plain_kind, edit_of, line_of};

use book::{Edit, Kind};

// Where the first byte d of a text stands, or the text's length.
pub fn index_of(text: &[u8], d: u8) -> usize
    ensures { result ≡ index_of d text.now }
{
    text.iter().position(|x| *x == d).unwrap_or(text.len())
}

// The lines of a text, from its front on.
#[derive(Drop)]
pub struct Lines<'a> {
    pub text: &'a [u8],
}

impl<'a> Iterator for Lines<'a> {
    type Item = &'a [u8];

    ghost next_gives = { YieldsFirstRef (λ s. lines s.text.now) };

    ghost remaining = { item_count (λ s. lines s.text.now) };

    fn next(&mut self) -> Option<&'a [u8]> {
        let text = self.text;
        if text.is_empty() {
            return None;
        }
        let (line, rest) = text.split_at(index_of(text, b'\n'));
        self.text = &rest[usize::min(1, rest.len())..];
        Some(line)
    }
}

// The number that a word is.
fn number(word: &[u8]) -> Option<u64>
    ensures { result ≡ number_of word.now }
{
    if word.is_empty() || word.len() > 10 {
        return None;
    }
    let mut x = 0;
    for d in word {
        if !d.is_ascii_digit() {
            return None;
        }
        x = 10 * x + u64::from(*d - b'0');
    }
    (x <= 4294967295).then_some(x)
}

// The n of a hall line.
pub fn hall_of(line: &[u8]) -> Option<u64>
    ensures { result ≡ hall_word (words line.now) }
{
    let mut words = line.split(|x| *x == b' ');
    let name = words.next()?;
    let n = words.next()?;
    match words.next() {
        Some(_) => None,
        None if name == b"hall".as_slice() => number(n),
        None => None,
    }
}

// A kind if the word is its name.
fn if_named(word: &[u8], name: &[u8], kind: Kind) -> Option<Kind>
    ensures { result ≡ cond (same word.now name.now) (Some kind) None }
{
    (word == name).then_some(kind)
}

// The kinds of edit whose line ends in a cost, and those whose line has none.
fn costly_kind(word: &[u8]) -> Option<Kind>
    ensures { result ≡ costly_kind word.now }
{
    if_named(word, b"insert", Kind::Insert)
        .or(if_named(word, b"cheapen", Kind::Cheapen))
        .or(if_named(word, b"raise", Kind::Raise))
}

fn plain_kind(word: &[u8]) -> Option<Kind>
    ensures { result ≡ plain_kind word.now }
{
    if_named(word, b"delete", Kind::Delete)
}

// The edit of a kind, u, v and a cost.
fn edit_of(kind: Option<Kind>, u: Option<u64>, v: Option<u64>, cost: Option<u64>) -> Option<Edit>
    ensures { result ≡ edit_of kind u v cost }
{
    Some(Edit {
        kind: kind?,
        u: u?,
        v: v?,
        cost: cost?,
    })
}

// A line of three words.
fn line_of_three(kind: &[u8], u: &[u8], v: &[u8]) -> Option<Edit>
    ensures { result ≡ line_of (kind.now ∷ u.now ∷ v.now ∷ []) }
{
    edit_of(plain_kind(kind), number(u), number(v), Some(0))
}

// A line of four words.
fn line_of_four(kind: &[u8], u: &[u8], v: &[u8], cost: &[u8]) -> Option<Edit>
    ensures { result ≡ line_of (kind.now ∷ u.now ∷ v.now ∷ cost.now ∷ []) }
{
    edit_of(costly_kind(kind), number(u), number(v), number(cost))
}

// What a line after the first says: an edit, a delete's cost being 0, or nothing.
pub fn line_of(line: &[u8]) -> Option<Edit>
    ensures { result ≡ line_of (words line.now) }
{
    let mut words = line.split(|x| *x == b' ');
    let kind = words.next()?;
    let u = words.next()?;
    let v = words.next()?;
    let Some(cost) = words.next() else {
        return line_of_three(kind, u, v);
    };
    match words.next() {
        Some(_) => None,
        None => line_of_four(kind, u, v, cost),
    }
}
