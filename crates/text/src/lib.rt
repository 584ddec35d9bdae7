//! Packed text: four letters, 20 to 5F hexadecimal, in three bytes, six bits each, the first letter highest.
#![tactic(auto)]

ghost use Rattle.std.specs.Prelude.{◌≡◌, ◌^◌, ◌<◌, true, List, ℕ, length, take, IfOk, refl};
ghost use Rattle.refusals.specs.Refusals.{numbered};
ghost use Rattle.refusals.specs.Filling.{Fills};
ghost use Rattle.text.specs.Groups.{in_groups};
ghost use Rattle.text.specs.Text.{six_bits, letter_of, letters?, bits_of_letters, bits_of_bytes, three_bytes, four_letters, Packs, Unpacks, ReadsBack, PacksAgain};

use refusals::Refusal;

/// Packs `text` into the front of `out` and answers how many bytes it wrote: 110 unless the text is letters in groups of
/// four, then 102 where `out` is too short.
pub fn pack(text: &[u8], out: &mut [u8]) -> Result<usize, Refusal>
    ensures fills { Packs text.now out.old (numbered result) out.new }
    ensures back { IfOk result (λ n. ReadsBack text.now (take n out.new)) }
{
    if text.len() % 4 != 0 || !all_letters(text) {
        return Err(Refusal::OutOfForm);
    }
    regroup::<4, 3, Packing>(text, out)
}

/// Unpacks `packed` into the front of `out` and answers how many letters it wrote: 110 unless the bytes come in groups of
/// three, then 102 where `out` is too short.
pub fn unpack(packed: &[u8], out: &mut [u8]) -> Result<usize, Refusal>
    ensures fills { Unpacks packed.now out.old (numbered result) out.new }
    ensures back { IfOk result (λ n. PacksAgain packed.now (take n out.new)) }
{
    if packed.len() % 3 != 0 {
        return Err(Refusal::OutOfForm);
    }
    regroup::<3, 4, Unpacking>(packed, out)
}

// A code of bytes in groups: of each N bytes it makes M.
trait Code<const N: usize, const M: usize> {
    ghost coded: { List ℕ → List ℕ };

    fn code(group: &[u8; N]) -> [u8; M]
        ensures { result ≡ coded group.now };

    ghost sized: { (group : List ℕ) → length (coded group) ≡ M };
}

struct Packing;

struct Unpacking;

// Codes each group, one after another, into the front of `out` and answers how many bytes it wrote: 102 where `out` is too
// short.
fn regroup<const N: usize, const M: usize, C: Code<N, M>>(
    from: &[u8],
    out: &mut [u8],
) -> Result<usize, Refusal>
    requires sizes { (0 < N) × (0 < M) }
    requires small { (N < 2 ^ 8) × (M < 2 ^ 8) }
    ensures { Fills true (in_groups N C.coded from.now) out.old (numbered result) out.new }
{
    let (groups, _) = from.as_chunks::<N>();
    if out.len() / M < groups.len() {
        return Err(Refusal::ShortBuffer);
    }
    // Into `out` by places: what becomes of a slice that is lent in chunks no clause of the library says.
    for (i, group) in groups.iter().enumerate() {
        out[i * M..(i + 1) * M].copy_from_slice(&C::code(group));
    }
    Ok(groups.len() * M)
}

fn all_letters(text: &[u8]) -> bool
    ensures { result ≡ letters? text.now }
{
    text.iter().all(|letter| matches!(*letter, 0x20..=0x5F))
}

// The letter of six bits: bit 6 is the complement of bit 5.
fn letter(bits: u32) -> u8
    requires { bits < 64 }
    ensures { result ≡ letter_of bits }
{
    let bit_5 = bits / 32;
    (bits + 64 * (1 - bit_5)) as u8
}

// The six low bits of a letter.
fn six_bits(letter: u8) -> u32
    ensures { result ≡ six_bits letter }
{
    u32::from(letter % 64)
}

impl Code<4, 3> for Packing {
    ghost coded = { λ g. three_bytes (bits_of_letters g) };

    ghost sized = { λ _. refl };

    fn code(letters: &[u8; 4]) -> [u8; 3] {
        let [a, b, c, d] = *letters;
        let bits = ((six_bits(a) * 64 + six_bits(b)) * 64 + six_bits(c)) * 64 + six_bits(d);
        let [_, first, second, third] = bits.to_be_bytes();
        [first, second, third]
    }
}

impl Code<3, 4> for Unpacking {
    ghost coded = { λ g. four_letters (bits_of_bytes g) };

    ghost sized = { λ _. refl };

    fn code(bytes: &[u8; 3]) -> [u8; 4] {
        let [first, second, third] = *bytes;
        let bits = u32::from_be_bytes([0, first, second, third]);
        [
            letter(bits >> 18),
            letter((bits >> 12) % 64),
            letter((bits >> 6) % 64),
            letter(bits % 64),
        ]
    }
}

#[cfg(test)]
mod tests {
    use super::*;

    #[test]
    fn tag_both_ways(rt: HostRuntime) {
        let mut packed = [0xA5; 7];
        assert_eq!(rt; pack(b"MFC-1234", &mut packed), Ok(6));
        assert_eq!(rt; packed, [0x34, 0x60, 0xED, 0xC7, 0x2C, 0xF4, 0xA5]);
        let mut letters = [0xA5; 9];
        assert_eq!(rt; unpack(&packed[0..6], &mut letters), Ok(8));
        assert_eq!(rt; letters, *b"MFC-1234\xA5");
    }

    #[test]
    fn refusals(rt: HostRuntime) {
        let mut out = [0xA5; 5];
        assert_eq!(rt; pack(b"MFC-123", &mut out), Err(Refusal::OutOfForm));
        assert_eq!(rt; pack(b"mfc-1234", &mut out), Err(Refusal::OutOfForm));
        assert_eq!(rt; pack(b"MFC-1234", &mut out), Err(Refusal::ShortBuffer));
        assert_eq!(rt; unpack(&[1, 2], &mut out), Err(Refusal::OutOfForm));
        assert_eq!(rt;
            unpack(&[1, 2, 3, 4, 5, 6], &mut out),
            Err(Refusal::ShortBuffer)
        );
        assert_eq!(rt; out, [0xA5; 5]);
    }
}
