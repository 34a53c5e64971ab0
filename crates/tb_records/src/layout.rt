//! The layout of the items of a body: how each is written and read.
ghost use Rattle.std.proofs.Common.{rules, length-append};
ghost use Rattle.byteorder.specs.Numbers.{length-bytes_low_first};
ghost use Rattle.std.specs.Prelude.{◌≡◌, ◌<◌, ◌≤◌, ◌^◌, ℕ, List, length, take, refl};
ghost use Rattle.tb_records.specs.Numbers.{le_bytes};
ghost use Rattle.tb_records.specs.RecordBytes.{account_bytes, transfer_bytes, result_bytes, IsAccount, IsTransfer, IsResult};

use crate::encoding::{put_u16, put_u32, put_u64, put_u128, u16_at, u32_at, u64_at, u128_at};
use crate::records::{Account, EventResult, Transfer};

/// An item of the body of a frame, which is a list of items of one size.
pub(crate) trait Item: Copy + Drop {
    // The bytes of an item.
    ghost spelling: { Self → List ℕ };

    // Its numbers fit their fields.
    ghost Fits: { Self → Type 0 };

    ghost SIZE: { ℕ };

    /// The number of bytes of an item.
    const SIZE: usize;

    /// The item that the bytes encode.
    fn read(bytes: &[u8]) -> Self
        requires { length bytes.now ≡ SIZE }
        ensures spelled { spelling result ≡ bytes.now }
        ensures fits { Fits result };

    /// Writes the item to the beginning of the bytes.
    fn write(&self, out: &mut [u8; 128])
        ensures spelled { take SIZE out.new ≡ spelling self.now }
        ensures fits { Fits self.now };

    // No item has more bytes than a record.
    ghost small: { SIZE ≤ 128 };

    // All items have the same number of bytes.
    ghost length_spelling: { (x : Self) → length (spelling x) ≡ SIZE };
}

impl Item for Account {
    ghost spelling = { account_bytes };

    ghost Fits = { IsAccount };

    ghost SIZE = { 128 };

    ghost small = { Prim.search rules };

    ghost length_spelling = { λ x. unfold account_bytes le_bytes in Prim.simp (length-append, length-bytes_low_first) };

    const SIZE: usize = 128;

    fn write(&self, out: &mut [u8; 128]) {
        let out: &mut [u8] = out;
        put_u128(out, 0, self.id);
        put_u128(out, 16, self.debits_pending);
        put_u128(out, 32, self.debits_posted);
        put_u128(out, 48, self.credits_pending);
        put_u128(out, 64, self.credits_posted);
        put_u128(out, 80, self.user_data_128);
        put_u64(out, 96, self.user_data_64);
        put_u32(out, 104, self.user_data_32);
        put_u32(out, 108, self.reserved);
        put_u32(out, 112, self.ledger);
        put_u16(out, 116, self.code);
        put_u16(out, 118, self.flags);
        put_u64(out, 120, self.timestamp);
    }

    fn read(bytes: &[u8]) -> Account {
        Account {
            id: u128_at(bytes, 0),
            debits_pending: u128_at(bytes, 16),
            debits_posted: u128_at(bytes, 32),
            credits_pending: u128_at(bytes, 48),
            credits_posted: u128_at(bytes, 64),
            user_data_128: u128_at(bytes, 80),
            user_data_64: u64_at(bytes, 96),
            user_data_32: u32_at(bytes, 104),
            reserved: u32_at(bytes, 108),
            ledger: u32_at(bytes, 112),
            code: u16_at(bytes, 116),
            flags: u16_at(bytes, 118),
            timestamp: u64_at(bytes, 120),
        }
    }
}

impl Item for Transfer {
    ghost spelling = { transfer_bytes };

    ghost Fits = { IsTransfer };

    ghost SIZE = { 128 };

    ghost small = { Prim.search rules };

    ghost length_spelling = { λ x. unfold transfer_bytes le_bytes in Prim.simp (length-append, length-bytes_low_first) };

    const SIZE: usize = 128;

    fn write(&self, out: &mut [u8; 128]) {
        let out: &mut [u8] = out;
        put_u128(out, 0, self.id);
        put_u128(out, 16, self.debit_account_id);
        put_u128(out, 32, self.credit_account_id);
        put_u128(out, 48, self.amount);
        put_u128(out, 64, self.pending_id);
        put_u128(out, 80, self.user_data_128);
        put_u64(out, 96, self.user_data_64);
        put_u32(out, 104, self.user_data_32);
        put_u32(out, 108, self.timeout);
        put_u32(out, 112, self.ledger);
        put_u16(out, 116, self.code);
        put_u16(out, 118, self.flags);
        put_u64(out, 120, self.timestamp);
    }

    fn read(bytes: &[u8]) -> Transfer {
        Transfer {
            id: u128_at(bytes, 0),
            debit_account_id: u128_at(bytes, 16),
            credit_account_id: u128_at(bytes, 32),
            amount: u128_at(bytes, 48),
            pending_id: u128_at(bytes, 64),
            user_data_128: u128_at(bytes, 80),
            user_data_64: u64_at(bytes, 96),
            user_data_32: u32_at(bytes, 104),
            timeout: u32_at(bytes, 108),
            ledger: u32_at(bytes, 112),
            code: u16_at(bytes, 116),
            flags: u16_at(bytes, 118),
            timestamp: u64_at(bytes, 120),
        }
    }
}

impl Item for EventResult {
    ghost spelling = { result_bytes };

    ghost Fits = { IsResult };

    ghost SIZE = { 8 };

    ghost small = { Prim.search rules };

    ghost length_spelling = { λ x. unfold result_bytes le_bytes in Prim.simp (length-append, length-bytes_low_first) };

    const SIZE: usize = 8;

    fn read(bytes: &[u8]) -> EventResult {
        EventResult {
            index: u32_at(bytes, 0),
            result: u32_at(bytes, 4),
        }
    }

    fn write(&self, out: &mut [u8; 128]) {
        let out: &mut [u8] = out;
        put_u32(out, 0, self.index);
        put_u32(out, 4, self.result);
    }
}

impl Item for u128 {
    ghost spelling = { le_bytes 16 };

    ghost Fits = { λ x. x < 2 ^ 128 };

    ghost SIZE = { 16 };

    ghost small = { Prim.search rules };

    ghost length_spelling = { λ x. unfold le_bytes in length-bytes_low_first 0 16 x };

    const SIZE: usize = 16;

    fn read(bytes: &[u8]) -> u128 {
        u128_at(bytes, 0)
    }

    fn write(&self, out: &mut [u8; 128]) {
        put_u128(out, 0, *self);
    }
}
