//! The checksum of an entry.
ghost use Rattle.std.specs.Prelude.{◌≡◌, ◌≤◌, length};
ghost use Rattle.tb_log.specs.Format.{content_max, checksum_of};

use tb_file_journal::checksum_of;

/// The checksum of an entry: of its position, of the length of its content, and of its content.
#[tactic(auto, using(crate::proofs::Numbers::eight_written, crate::proofs::Numbers::four_written))]
pub(crate) fn entry_sum(position: u64, content: &[u8]) -> u32
    requires { length content.now ≤ content_max }
    ensures { result ≡ checksum_of position content.now }
{
    let [a, b, c, d, e, f, g, h] = position.to_le_bytes();
    let [i, j, k, l] = (content.len() as u32).to_le_bytes();
    checksum_of(&[a, b, c, d, e, f, g, h, i, j, k, l], content)
}
