// A frame, a domain's scalars and an entry, each as one lent word. Only this module knows the bits. The topmost field of a
// word takes all the bits that are left, so that a stray bit makes it a number out of range.
ghost use Rattle.std.specs.Prelude.{◌≡◌, ◌<◌};
ghost use Rattle.book_ledger.specs.Words.{frame_from, frame_word, domain_from, domain_word, entry_from, entry_word};

use base_units::address::Pfn;

// An epoch has 32 bits.
const EPOCH_VALUES: u64 = 4294967296;

// `kind`, `life`, `op` and `state` stay numbers: a lent word may hold any, and answer 13 (`lent_ok`) is about those that are no code.
#[derive(Clone, Copy)]
pub struct Frame {
    pub kind: u64,
    pub owner: Pfn,
    pub number: u64,
    pub epoch: u64,
    pub size: u64,
}

#[derive(Clone, Copy)]
pub struct Domain {
    pub key: u64,
    pub life: u64,
    pub op: u64,
    pub listed: u64,
    pub children: u64,
    pub epoch: u64,
    pub width: u64,
}

#[derive(Clone, Copy)]
pub struct Entry {
    pub state: u64,
    pub frame: Pfn,
}

impl From<u64> for Frame {
    ghost from_gives = { λ word f. f ≡ frame_from word };

    fn from(word: u64) -> Frame {
        Frame {
            kind: word % 8,
            owner: Pfn((word / 8 % 16384) as usize),
            number: word / 131072 % 256,
            epoch: word / 33554432 % EPOCH_VALUES,
            size: word / 144115188075855872,
        }
    }
}

impl From<Frame> for u64 {
    ghost from_gives = { λ f word. word ≡ frame_word f };

    fn from(f: Frame) -> u64 {
        let owner = f.owner;
        let dated = f.epoch % EPOCH_VALUES + EPOCH_VALUES * (f.size % 128);
        f.kind % 8 + 8 * ((owner.0 as u64) % 16384 + 16384 * (f.number % 256 + 256 * dated))
    }
}

impl From<u64> for Domain {
    ghost from_gives = { λ word d. d ≡ domain_from word };

    fn from(word: u64) -> Domain {
        Domain {
            key: word % 128,
            life: word / 128 % 8,
            op: word / 1024 % 4,
            listed: word / 4096 % 8,
            children: word / 32768 % 32768,
            epoch: word / 1073741824 % EPOCH_VALUES,
            width: word / 4611686018427387904,
        }
    }
}

impl From<Domain> for u64 {
    ghost from_gives = { λ d word. word ≡ domain_word d };

    fn from(d: Domain) -> u64 {
        let dated = d.epoch % EPOCH_VALUES + EPOCH_VALUES * (d.width % 4);
        let counted = d.listed % 8 + 8 * (d.children % 32768 + 32768 * dated);
        d.key % 128 + 128 * (d.life % 8 + 8 * (d.op % 4 + 4 * counted))
    }
}

impl From<u32> for Entry {
    ghost from_gives = { λ word e. e ≡ entry_from word };

    fn from(word: u32) -> Entry {
        Entry {
            state: (word % 8) as u64,
            frame: Pfn((word / 8) as usize),
        }
    }
}

impl From<Entry> for u32 {
    ghost from_gives = { λ e word. word ≡ entry_word e };

    fn from(e: Entry) -> u32 {
        let frame = e.frame;
        (e.state % 8 + 8 * ((frame.0 as u64) % 536870912)) as u32
    }
}
