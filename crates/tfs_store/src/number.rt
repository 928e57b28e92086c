//! Numbers in decimal, as the store's texts have them.

ghost use Rattle.std.specs.Prelude.{◌≡◌, ◌<◌, ◌^◌, ◌++◌, ◌∷◌, ℕ, List, Some, decimal, IfSome, IsSomeAnd};

use itoa::Buffer;

/// Reads a number in decimal, without a sign or leading zeros.
pub fn read_number(text: &str) -> Option<u64>
    ensures read { IfSome result (λ n. text.now ≡ decimal n) }
    ensures written { (n : ℕ) → n < 2 ^ 64 → text.now ≡ decimal n → result ≡ Some n }
{
    match text.parse::<u64>() {
        Ok(number) => written_alike(number, text),
        Err(_) => None,
    }
}

/// Returns a number if it is written as this text.
fn written_alike(number: u64, text: &str) -> Option<u64>
    ensures read { IfSome result (λ n. text.now ≡ decimal n) }
    ensures written { text.now ≡ decimal number → result ≡ Some number }
{
    let mut buffer = Buffer::new();
    if buffer.format(number) == text {
        Some(number)
    } else {
        None
    }
}

/// Reads a number in decimal that ends at the first mark, and returns it with the text after the
/// mark.
pub(crate) fn read_number_before(text: &str, mark: char) -> Option<(u64, &str)>
    requires { mark < 48 }
    ensures read { IfSome result (λ x. text.now ≡ decimal x.0 ++ mark ∷ x.1.now) }
    ensures written { (n : ℕ) (rest : List ℕ) → n < 2 ^ 64 → text.now ≡ decimal n ++ mark ∷ rest
        → IsSomeAnd result (λ x. (x.0 ≡ n) × (x.1.now ≡ rest)) }
{
    let (digits, rest) = text.split_once(mark)?;
    let number = read_number(digits)?;
    Some((number, rest))
}
