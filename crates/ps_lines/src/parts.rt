//! Fields that have parts.

ghost use Rattle.std.specs.Prelude.{◌≡◌, option_map};
ghost use Rattle.ps_lines.specs.Parts.{cut_at};

/// The parts of a field before and after the first byte of this value, if it has one.
#[tactic(auto, using(crate::proofs::Cutting::cutting_none, crate::proofs::Cutting::cutting_more, crate::proofs::Cutting::cutting_found, crate::proofs::Cutting::cutting_all))]
pub fn cut(field: &[u8], byte: u8) -> Option<(&[u8], &[u8])>
    ensures { option_map (λ p. (p.0.now, p.1.now)) result ≡ cut_at byte field.now }
{
    for (i, b) in field.iter().enumerate() {
        if *b == byte {
            let (front, rest) = field.split_at(i);
            let (_, back) = rest.split_at(1);
            return Some((front, back));
        }
    }
    None
}
