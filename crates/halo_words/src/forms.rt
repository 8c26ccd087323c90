// The table of commands: the word, the options and the operands of each.
ghost use Rattle.std.specs.Prelude.{◌≡◌, ◌∷◌, map};
ghost use Rattle.halo_words.specs.Table.{the_table, shape_of};

/// What a value or an operand may be. None is empty or begins with `-`.
#[derive(Clone, Copy, Debug)]
pub enum Kind {
    /// A number from `least` to `most`, in decimal digits without a leading zero.
    Number { least: u64, most: u64 },
    /// A name.
    Name,
}

/// An option: its name without dashes, what its value may be, and the value that stands where it isn't given.
#[derive(Clone, Copy, Debug)]
pub struct Setting {
    pub name: &'static str,
    pub kind: Kind,
    pub default: &'static str,
}

/// An operand: its name in texts for people, and what it may be.
#[derive(Clone, Copy, Debug)]
pub struct Operand {
    pub name: &'static str,
    pub kind: Kind,
}

/// A command: its word, its options, and its operands in their order.
#[derive(Clone, Copy, Debug)]
pub struct Form {
    pub word: &'static str,
    pub settings: &'static [Setting],
    pub operands: &'static [Operand],
}

const PLAN: Operand = Operand {
    name: "PLAN",
    kind: Kind::Name,
};

const FILE: Operand = Operand {
    name: "FILE",
    kind: Kind::Name,
};

const STEPS: Setting = Setting {
    name: "steps",
    kind: Kind::Number {
        least: 0,
        most: 4294967295,
    },
    default: "100000000",
};

const PROFILE: Operand = Operand {
    name: "PROFILE",
    kind: Kind::Name,
};

const CHUNKS: Setting = Setting {
    name: "chunks",
    kind: Kind::Number {
        least: 0,
        most: 256,
    },
    default: "64",
};

const LOG: Setting = Setting {
    name: "log",
    kind: Kind::Number { least: 0, most: 20 },
    default: "8",
};

const FALLBACK: Setting = Setting {
    name: "fallback",
    kind: Kind::Number {
        least: 0,
        most: 1048576,
    },
    default: "65536",
};

const TOLERANCE: Setting = Setting {
    name: "tolerance",
    kind: Kind::Number {
        least: 0,
        most: 150,
    },
    default: "50",
};

const EDGE: Setting = Setting {
    name: "edge",
    kind: Kind::Number {
        least: 1,
        most: 17592186044416,
    },
    default: "1",
};

const POLICY: Setting = Setting {
    name: "policy",
    kind: Kind::Name,
    default: "density",
};

const DISTANCE: Setting = Setting {
    name: "distance",
    kind: Kind::Number {
        least: 0,
        most: 4096,
    },
    default: "128",
};

const NODES: Operand = Operand {
    name: "N",
    kind: Kind::Number {
        least: 1,
        most: 30000,
    },
};

/// All commands.
const FORMS: [Form; 9] = [
    Form {
        word: "rewrite",
        settings: &[],
        operands: &[PLAN, FILE],
    },
    Form {
        word: "optimise",
        settings: &[
            STEPS, DISTANCE, CHUNKS, LOG, FALLBACK, TOLERANCE, EDGE, POLICY,
        ],
        operands: &[FILE],
    },
    Form {
        word: "run",
        settings: &[STEPS],
        operands: &[FILE],
    },
    Form {
        word: "symbols",
        settings: &[STEPS],
        operands: &[PLAN, FILE],
    },
    Form {
        word: "profile",
        settings: &[STEPS, DISTANCE, CHUNKS, LOG, FALLBACK],
        operands: &[FILE],
    },
    Form {
        word: "plan",
        settings: &[CHUNKS, LOG, FALLBACK, TOLERANCE, EDGE, POLICY],
        operands: &[PROFILE],
    },
    Form {
        word: "show",
        settings: &[],
        operands: &[FILE],
    },
    Form {
        word: "gen",
        settings: &[],
        operands: &[NODES],
    },
    Form {
        word: "self",
        settings: &[],
        operands: &[NODES],
    },
];

/// The commands are those of the table.
#[tactic(auto, unfolding(crate::specs::Table::the_table))]
pub fn all_forms() -> [Form; 9]
    ensures { map shape_of result ≡ the_table }
{
    FORMS
}
