// Each refusal of each call alone, and then the order of every two that apply at once; what is just inside is done.
use crate::call::Call;

const FAR: usize = 0xffffffffffffffff;

pub(crate) static REFUSALS: [Call; 76] = [
    // the memory begins as zeros: every block is full
    Call::Mark(0),
    Call::Mark(3),
    Call::Mark(4),
    Call::Mark(FAR),
    Call::Program(0, 0, 0, 4),
    Call::Program(0, 0, 4092, 4),
    Call::Program(0, 0, 4096, 0),
    Call::Erase(0),
    Call::Erase(1),
    Call::Erase(3),
    Call::Erase(4),
    Call::Erase(FAR),
    Call::Mark(0),
    Call::Mark(2),
    // reads: by block, by offset, by length, and just inside
    Call::Read(0, 0, 4096),
    Call::Read(0, 0, 4097),
    Call::Read(0, 1, 4096),
    Call::Read(0, 4095, 1),
    Call::Read(0, 4095, 2),
    Call::Read(0, 4096, 0),
    Call::Read(0, 4096, 1),
    Call::Read(0, 4097, 0),
    Call::Read(0, FAR, 0),
    Call::Read(0, FAR, 2),
    Call::Read(2, 4000, 96),
    Call::Read(3, 0, 4096),
    Call::Read(3, 4096, 0),
    Call::Read(4, 0, 0),
    Call::Read(4, 0, 4),
    Call::Read(FAR, 0, 4),
    Call::Read(1, 3, 5),
    // programs: just inside, and 11 by block, by offset and by length
    Call::Program(0, 0, 0, 0),
    Call::Program(0, 0, 0, 8),
    Call::Mark(0),
    Call::Program(64, 0, 8, 4),
    Call::Program(0, 3, 0, 4096),
    Call::Program(0, 3, 4096, 0),
    Call::Program(0, 1, 4092, 4),
    Call::Program(0, 1, 4092, 8),
    Call::Program(0, 0, 4096, 4),
    Call::Program(0, 0, 4096, 0),
    Call::Program(0, 0, 4100, 0),
    Call::Program(0, 0, FAR - 3, 4),
    Call::Program(0, 0, FAR - 3, 8),
    Call::Program(0, 0, 4, 4100),
    Call::Program(0, 4, 0, 4),
    Call::Program(0, 4, 0, 0),
    Call::Program(0, FAR, 0, 4),
    // 12 by offset and by length
    Call::Program(0, 0, 14, 4),
    Call::Program(0, 0, 12, 3),
    Call::Program(0, 0, 13, 0),
    Call::Program(0, 0, 14, 2),
    // 13, and just inside
    Call::Program(0, 0, 8, 4),
    Call::Program(0, 0, 0, 0),
    Call::Program(0, 0, 12, 4),
    // words of ff do not raise the mark; a word with one other byte does
    Call::Erase(2),
    Call::Program(255, 2, 0, 8),
    Call::Mark(2),
    Call::Program(0, 2, 4, 4),
    Call::Mark(2),
    Call::Look(2),
    // 11 and 12, by block and by offset and length
    Call::Program(0, 4, 2, 4),
    Call::Program(0, 4, 0, 3),
    Call::Program(0, 0, 4094, 4),
    Call::Program(0, 0, 4095, 2),
    Call::Program(0, 0, 4097, 0),
    // 11 and 13
    Call::Program(0, 0, 0, 4100),
    Call::Program(0, 0, 12, 4088),
    // 12 and 13
    Call::Program(0, 0, 2, 4),
    Call::Program(0, 0, 0, 3),
    Call::Program(0, 0, 3, 0),
    // 11, 12 and 13
    Call::Program(0, 0, 2, 4096),
    // nothing of all this changed the block
    Call::Look(0),
    Call::Mark(0),
    Call::Read(0, 0, 4096),
    Call::Read(1, 4000, 96),
];

pub(crate) static WITHOUT_POWER: [Call; 38] = [
    Call::Arm(0, 0),
    Call::Erase(1),
    // 20 alone
    Call::Erase(1),
    Call::Read(0, 0, 4),
    Call::Read(0, 0, 0),
    Call::Program(0, 0, 16, 4),
    Call::Program(0, 0, 16, 0),
    Call::Mark(0),
    Call::Arm(5, 255),
    // 20 and 11
    Call::Erase(4),
    Call::Erase(FAR),
    Call::Mark(4),
    Call::Mark(FAR),
    Call::Read(4, 0, 4),
    Call::Read(0, 4093, 4),
    Call::Read(0, 4097, 0),
    Call::Program(0, 4, 0, 4),
    Call::Program(0, 0, 4096, 4),
    Call::Program(0, 0, 4, 4096),
    // 20 and 12
    Call::Program(0, 0, 17, 4),
    Call::Program(0, 0, 16, 3),
    // 20 and 13
    Call::Program(0, 0, 0, 4),
    // all of them
    Call::Program(0, 4, 2, 3),
    Call::Program(0, 0, 2, 4099),
    // nothing changed, and the power is steady again
    Call::Restart,
    Call::Look(0),
    Call::Mark(0),
    Call::Read(0, 0, 4096),
    Call::Read(1, 4000, 96),
    Call::Program(0, 0, 16, 40),
    Call::Erase(1),
    Call::Mark(1),
    // a refused call is no step, nor is a program of no bytes
    Call::Arm(0, 0x80),
    Call::Program(0, 1, 2, 4),
    Call::Erase(4),
    Call::Program(0, 1, 8, 0),
    Call::Program(0, 1, 8, 4),
    Call::Restart,
];
