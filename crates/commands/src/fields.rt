//! Fields, numbers and pairs in the text of a line.
ghost use Rattle.std.specs.Prelude.{◌≡◌, ◌≢◌, ◌<◌, ◌≤◌, ◌++◌, ◌∷◌, length, slice_index, take, IfSome, IfNone, ℕ, List};
ghost use Rattle.spec_language.specs.Common.{is_space, is_visible, Are, AreFields, IsNumber, IsSmall, IsPair};
ghost use Rattle.spec_language.specs.Common.{IsBlockCount};
ghost use Rattle.commands.specs.Common.{is_other_than, IsDecimal, Begins, IsBehind};

use words36::Ppn;

/// Returns how many bytes come before the first one that is `mark`.
pub(crate) fn length_before(text: &[u8], mark: u8) -> usize
    ensures within { result ≤ length text.now }
    ensures other { Are (is_other_than mark) (take result text.now) }
    ensures mark { result < length text.now → slice_index text.now result ≡ mark }
{
    for (i, byte) in text.iter().enumerate() {
        if *byte == mark {
            return i;
        }
    }
    text.len()
}

/// Returns how many bytes come before the first space.
fn word_length(text: &[u8]) -> usize
    ensures within { result ≤ length text.now }
    ensures visible { Are is_visible (take result text.now) }
    ensures space { result < length text.now → slice_index text.now result ≡ 32 }
{
    length_before(text, b' ')
}

/// Returns how many spaces come before anything else.
fn gap_length(text: &[u8]) -> usize
    ensures within { result ≤ length text.now }
    ensures spaces { Are is_space (take result text.now) }
    ensures visible { result < length text.now → slice_index text.now result ≢ 32 }
{
    for (i, byte) in text.iter().enumerate() {
        if *byte != b' ' {
            return i;
        }
    }
    text.len()
}

/// Returns the first field of a text, and the text of the fields after it: one that begins with a field, has spaces
/// between fields, and none at its end.
pub(crate) fn first_field(text: &[u8]) -> Option<(&[u8], &[u8])>
    ensures some { IfSome result (λ parts. Begins text.now parts.0.now parts.1.now) }
    ensures none { IfNone result ((one : List ℕ) (more : List (List ℕ)) → AreFields (one ∷ more) text.now → ⊥) }
{
    let (field, behind) = text.split_at(word_length(text));
    let (gap, rest) = behind.split_at(gap_length(behind));
    if field.is_empty() {
        return None;
    }
    if rest.is_empty() && !gap.is_empty() {
        return None;
    }
    Some((field, rest))
}

/// Returns the number that a text of at most `most` octal digits spells.
pub(crate) fn octal_number(text: &[u8], most: usize) -> Option<u64>
    requires { most ≤ 12 }
    ensures some { IfSome result (λ n. IsNumber most text.now n) }
    ensures none { IfNone result ((n : ℕ) → IsNumber most text.now n → ⊥) }
{
    if text.is_empty() || most < text.len() {
        return None;
    }
    let mut number: u64 = 0;
    for digit in text {
        if *digit < b'0' || b'7' < *digit {
            return None;
        }
        number = number * 8 + u64::from(*digit - b'0');
    }
    Some(number)
}

/// Returns the same as `octal_number`, if the number fits in a half word.
pub(crate) fn small_number(text: &[u8], most: usize) -> Option<u32>
    requires { most ≤ 12 }
    ensures some { IfSome result (λ n. IsSmall most text.now n) }
    ensures none { IfNone result ((n : ℕ) → IsSmall most text.now n → ⊥) }
{
    match octal_number(text, most) {
        Some(number) if number < 1 << 18 => Some(number as u32),
        _ => None,
    }
}

/// Returns the number that a text of `least` to `most` decimal digits spells.
pub(crate) fn decimal_number(text: &[u8], least: usize, most: usize) -> Option<u32>
    requires { most ≤ 6 }
    ensures some { IfSome result (λ n. IsDecimal least most text.now n) }
    ensures none { IfNone result ((n : ℕ) → IsDecimal least most text.now n → ⊥) }
{
    if text.len() < least || most < text.len() {
        return None;
    }
    let mut number: u32 = 0;
    for digit in text {
        if *digit < b'0' || b'9' < *digit {
            return None;
        }
        number = number * 10 + u32::from(*digit - b'0');
    }
    Some(number)
}

/// Returns the number of blocks that a text of one to six decimal digits spells, at most 262143.
pub(crate) fn block_count(text: &[u8]) -> Option<u32>
    ensures some { IfSome result (λ n. IsBlockCount text.now n) }
    ensures none { IfNone result ((n : ℕ) → IsBlockCount text.now n → ⊥) }
{
    match decimal_number(text, 1, 6) {
        Some(number) if number < 1 << 18 => Some(number),
        _ => None,
    }
}

/// Returns the text after this word and the spaces that follow it.
pub(crate) fn behind_word<'a>(text: &'a [u8], word: &[u8]) -> Option<&'a [u8]>
    requires { Are is_visible word.now }
    ensures some { IfSome result (λ rest. IsBehind text.now word.now rest.now) }
    ensures none { IfNone result ((rest : List ℕ) → IsBehind text.now word.now rest → ⊥) }
{
    let (first, behind) = text.split_at(word_length(text));
    let (gap, rest) = behind.split_at(gap_length(behind));
    if first != word {
        return None;
    }
    if gap.is_empty() {
        return None;
    }
    Some(rest)
}

/// Returns the texts before and after the first comma.
fn at_comma(text: &[u8]) -> Option<(&[u8], &[u8])>
    ensures some { IfSome result (λ parts. Are (is_other_than 44) parts.0.now
        × (text.now ≡ parts.0.now ++ 44 ∷ parts.1.now)) }
    ensures none { IfNone result (Are (is_other_than 44) text.now) }
{
    for (i, byte) in text.iter().enumerate() {
        if *byte == b',' {
            return Some((&text[..i], &text[i + 1..]));
        }
    }
    None
}

/// Returns the project and the programmer that a text names by at most `most` octal digits each, with a comma between
/// them.
pub(crate) fn pair(text: &[u8], most: usize) -> Option<Ppn>
    requires { most ≤ 12 }
    ensures some { IfSome result (λ owner. IsPair most text.now owner) }
    ensures none { IfNone result ((owner : ℕ) → IsPair most text.now owner → ⊥) }
{
    let (project, programmer) = at_comma(text)?;
    let project = small_number(project, most)?;
    let programmer = small_number(programmer, most)?;
    Ppn::new(project, programmer)
}
