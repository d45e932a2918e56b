// Image check: whether bytes are an image of a hall. A reader starts at the end, with the trailer.
ghost use Rattle.std.specs.Prelude.{◌≡◌, ◌+◌, ◌*◌, ◌<◌, ◌≤◌, length};
ghost use Rattle.routes.specs.Route.{all_to};
ghost use Rattle.book.specs.Hall.{valid_record, is_image};
ghost use Rattle.book.specs.Call.{image_check};
ghost use Rattle.image_form.specs.Promise.{key_at};

use super::fields;
use book::Refusal;
use book::limits::Hall;

// The place of a record in the order: its two stops as one number.
fn key(image: &[u8], at: usize) -> usize
    requires { at + 2 ≤ length image.now }
    ensures { result ≡ key_at image.now at }
{
    256 * fields::u8_at(image, at) + fields::u8_at(image, at + 1)
}

// Record i is a link, and comes after the one before it.
#[tactic(auto, unfolding(book::specs::Hall::valid_record))]
fn is_record(n: usize, image: &[u8], i: usize) -> bool
    requires { 4 * i + 4 ≤ length image.now }
    ensures { result ≡ valid_record n image.now i }
{
    let at = 4 * i;
    let from = fields::u8_at(image, at);
    let to = fields::u8_at(image, at + 1);
    from < n
        && to < n
        && from != to
        && fields::u16_at(image, at + 2) != 0
        && (i == 0 || key(image, at - 4) < key(image, at))
}

// The first records are links, each after the one before it.
fn links_rise(n: usize, links: usize, image: &[u8]) -> bool
    requires { 4 * links ≤ length image.now }
    ensures { result ≡ all_to links (valid_record n image.now) }
{
    (0..links).all(|i| is_record(n, image, i))
}

// The bytes are an image of a hall of n stops.
#[tactic(auto, unfolding(book::specs::Hall::is_image))]
pub fn is_image(n: usize, image: &[u8]) -> bool
    ensures { result ≡ is_image n image.now }
{
    if image.len() < 8 {
        return false;
    }
    let at = image.len() - 8;
    let links = fields::u16_at(image, at + 2);
    fields::u8_at(image, at) == n
        && fields::u8_at(image, at + 1) == 1
        && fields::u32_at(image, at + 4) == 4 * links
        && 4 * links == at
        && links_rise(n, links, image)
}

// Image check: accepted for an image of a hall of n stops, else the first refusal of the two that it tests.
#[tactic(auto, unfolding(book::specs::Call::image_check))]
pub fn image_check(image: &[u8], n: u64) -> Result<(), Refusal>
    ensures { result ≡ image_check n image.now }
{
    if !Hall::takes(n) {
        return Err(Refusal::BadSize);
    }
    if !is_image(n as usize, image) {
        return Err(Refusal::BadImage);
    }
    Ok(())
}
