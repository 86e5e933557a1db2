//! The requests of attempts, written by hand, and replies with which an attempt goes on.

use dump_client::Progress::{self, Ended, Send};
use dump_client::VolumeCount;

/// A request (its text, and a byte that follows it so many times), a reply, and the result of
/// feeding it.
pub(crate) type Step = (&'static [u8], (u8, usize), &'static [u8], Progress);

/// An attempt at a volume: what is counted before it, its number and first block, and its steps.
pub(crate) struct Script {
    pub(crate) counted: &'static [VolumeCount],
    pub(crate) next: (u32, u32),
    pub(crate) steps: &'static [Step],
}

/// A volume that is written in these tests.
pub(crate) enum Volume {
    /// The volume of a run of no blocks.
    NoBlocks,
    /// A first volume of one block, after which another is refused.
    FirstBlock,
    /// A first volume of two blocks, after which a third is refused.
    FirstTwo,
    /// A volume of three blocks, which are the run.
    AllThree,
    /// A second volume of the last two blocks of three.
    LastTwo,
    /// A second volume of the last block of three.
    LastBlock,
    /// A first volume of two blocks, with other replies that are accepted as well.
    OtherReplies,
    /// The volume of a run of two blocks of 3 bytes.
    SmallBlocks,
    /// The volume of a run of two blocks of 262144 bytes.
    GreatestBlocks,
}

/// The volume of a run of no blocks.
pub(crate) const EMPTY: VolumeCount = VolumeCount {
    volume: 1,
    first: 0,
    count: 0,
};

/// A first volume of one block, and a second volume of the two blocks after it.
pub(crate) const ONE: VolumeCount = VolumeCount {
    volume: 1,
    first: 0,
    count: 1,
};

pub(crate) const ONE_AND_TWO: &[VolumeCount] = &[
    ONE,
    VolumeCount {
        volume: 2,
        first: 1,
        count: 2,
    },
];

/// A first volume of two blocks, and a second volume of the last.
pub(crate) const TWO: VolumeCount = VolumeCount {
    volume: 1,
    first: 0,
    count: 2,
};

pub(crate) const TWO_AND_ONE: &[VolumeCount] = &[
    TWO,
    VolumeCount {
        volume: 2,
        first: 2,
        count: 1,
    },
];

/// All three blocks of a run.
pub(crate) const THREE: VolumeCount = VolumeCount {
    volume: 1,
    first: 0,
    count: 3,
};

/// No byte follows the text of a request.
const NONE: (u8, usize) = (0, 0);

const OPEN: Step = (b"O/dev/st0\n2\n", NONE, b"A0\n", Send);

const REWIND: Step = (b"I5\n1\n", NONE, b"A1\n", Send);

/// A blank reel has no record to read.
const LOOK: Step = (b"R1024\n", NONE, b"A0\n", Send);

const MARK: Step = (b"I0\n1\n", NONE, b"A1\n", Send);

const UNLOAD: Step = (b"I6\n1\n", NONE, b"A1\n", Send);

const CLOSE: Step = (b"C\n", NONE, b"A0\n", Ended);

/// The write of the first label: 58 bytes of text, and 966 zero bytes.
const LABEL: Step = (
    b"W1024\nname /usr\nlevel 0\ndate 951782400\nsince 0\nvolume 1\nfirst 0\n",
    (0, 966),
    b"A1024\n",
    Send,
);

/// The label of a second volume, from block 1 on.
const LABEL_FROM_1: Step = (
    b"W1024\nname /usr\nlevel 0\ndate 951782400\nsince 0\nvolume 2\nfirst 1\n",
    (0, 966),
    b"A1024\n",
    Send,
);

/// The label of a second volume, from block 2 on.
const LABEL_FROM_2: Step = (
    b"W1024\nname /usr\nlevel 0\ndate 951782400\nsince 0\nvolume 2\nfirst 2\n",
    (0, 966),
    b"A1024\n",
    Send,
);

const BLOCK_0: Step = (b"W1024\n", (0, 1024), b"A1024\n", Send);

const BLOCK_1: Step = (b"W1024\n", (1, 1024), b"A1024\n", Send);

const BLOCK_2: Step = (b"W1024\n", (2, 1024), b"A1024\n", Send);

/// Blocks for which the reel has no room.
const BLOCK_1_REFUSED: Step = (b"W1024\n", (1, 1024), b"A0\n", Send);

const BLOCK_2_REFUSED: Step = (b"W1024\n", (2, 1024), b"A0\n", Send);

static NO_BLOCKS: Script = Script {
    counted: &[],
    next: (1, 0),
    steps: &[OPEN, REWIND, LOOK, REWIND, LABEL, MARK, UNLOAD, CLOSE],
};

static FIRST_BLOCK: Script = Script {
    counted: &[],
    next: (1, 0),
    steps: &[
        OPEN,
        REWIND,
        LOOK,
        REWIND,
        LABEL,
        BLOCK_0,
        BLOCK_1_REFUSED,
        MARK,
        UNLOAD,
        CLOSE,
    ],
};

static FIRST_TWO: Script = Script {
    counted: &[],
    next: (1, 0),
    steps: &[
        OPEN,
        REWIND,
        LOOK,
        REWIND,
        LABEL,
        BLOCK_0,
        BLOCK_1,
        BLOCK_2_REFUSED,
        MARK,
        UNLOAD,
        CLOSE,
    ],
};

static ALL_THREE: Script = Script {
    counted: &[],
    next: (1, 0),
    steps: &[
        OPEN, REWIND, LOOK, REWIND, LABEL, BLOCK_0, BLOCK_1, BLOCK_2, MARK, UNLOAD, CLOSE,
    ],
};

static LAST_TWO: Script = Script {
    counted: &[ONE],
    next: (2, 1),
    steps: &[
        OPEN,
        REWIND,
        LOOK,
        REWIND,
        LABEL_FROM_1,
        BLOCK_1,
        BLOCK_2,
        MARK,
        UNLOAD,
        CLOSE,
    ],
};

static LAST_BLOCK: Script = Script {
    counted: &[TWO],
    next: (2, 2),
    steps: &[
        OPEN,
        REWIND,
        LOOK,
        REWIND,
        LABEL_FROM_2,
        BLOCK_2,
        MARK,
        UNLOAD,
        CLOSE,
    ],
};

static OTHER_REPLIES: Script = Script {
    counted: &[],
    next: (1, 0),
    steps: &[
        (b"O/dev/st0\n2\n", NONE, b"A7\n", Send),
        (b"I5\n1\n", NONE, b"A0000000001\n", Send),
        (b"R1024\n", NONE, b"A5\nhello", Send),
        REWIND,
        LABEL,
        (b"W1024\n", (0, 1024), b"A01024\n", Send),
        BLOCK_1,
        (
            b"W1024\n",
            (2, 1024),
            b"E28\nNo space left on device\n",
            Send,
        ),
        MARK,
        UNLOAD,
        (b"C\n", NONE, b"E5\nInput/output error\n", Ended),
    ],
};

/// The open of another run's device, and the write of its label: 70 bytes of text, and 954 zero
/// bytes.
const OTHER_OPEN: Step = (b"O/dev/nst1\n2\n", NONE, b"A0\n", Send);

const OTHER_LABEL: Step = (
    b"W1024\nname /home\nlevel 9\ndate 253402300799\nsince 951782400\nvolume 1\nfirst 0\n",
    (0, 954),
    b"A1024\n",
    Send,
);

static SMALL_BLOCKS: Script = Script {
    counted: &[],
    next: (1, 0),
    steps: &[
        OTHER_OPEN,
        REWIND,
        LOOK,
        REWIND,
        OTHER_LABEL,
        (b"W3\n", (0, 3), b"A3\n", Send),
        (b"W3\n", (1, 3), b"A3\n", Send),
        MARK,
        UNLOAD,
        CLOSE,
    ],
};

static GREATEST_BLOCKS: Script = Script {
    counted: &[],
    next: (1, 0),
    steps: &[
        OTHER_OPEN,
        REWIND,
        LOOK,
        REWIND,
        OTHER_LABEL,
        (b"W262144\n", (0, 262144), b"A262144\n", Send),
        (b"W262144\n", (1, 262144), b"A262144\n", Send),
        MARK,
        UNLOAD,
        CLOSE,
    ],
};

/// Returns the script of a volume.
pub(crate) fn script_of(volume: &Volume) -> &'static Script {
    match volume {
        Volume::NoBlocks => &NO_BLOCKS,
        Volume::FirstBlock => &FIRST_BLOCK,
        Volume::FirstTwo => &FIRST_TWO,
        Volume::AllThree => &ALL_THREE,
        Volume::LastTwo => &LAST_TWO,
        Volume::LastBlock => &LAST_BLOCK,
        Volume::OtherReplies => &OTHER_REPLIES,
        Volume::SmallBlocks => &SMALL_BLOCKS,
        Volume::GreatestBlocks => &GREATEST_BLOCKS,
    }
}
