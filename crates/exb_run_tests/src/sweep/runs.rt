//! Whole runs, by their files.

/// A run: its words, its topology or those of a net with its file, its captures in hexadecimal, the
/// files that it makes, in their order, and its summary.
pub(super) struct Run {
    pub(super) words: &'static str,
    pub(super) texts: &'static [(&'static str, &'static str)],
    pub(super) captures: &'static [(&'static str, &'static str)],
    pub(super) outputs: &'static [&'static str],
    pub(super) summary: &'static str,
}

/// What comes to two ports: a broadcast, and an answer to its source.
const AT_TWO_PORTS: &[(&str, &str)] = &[
    (
        "a.pcap",
        "D4C3B2A1 0200 0400 8x00 FFFF0000 01000000 64000000 00000000 0E000000 0E000000 \
         FFFFFFFFFFFF 020000000001 0800",
    ),
    (
        "b.pcap",
        "D4C3B2A1 0200 0400 8x00 FFFF0000 01000000 65000000 00000000 0E000000 0E000000 \
         020000000001 020000000002 0800",
    ),
];

/// A bridge alone.
pub(super) const BARE: Run = Run {
    words: "run t.toml",
    texts: &[(
        "t.toml",
        "bridge.ports = 3\n[captures]\nb1 = 'a.pcap'\nb2 = 'b.pcap'\n",
    )],
    captures: AT_TWO_PORTS,
    outputs: &[
        "out-b1.pcap",
        "out-b2.pcap",
        "out-b3.pcap",
        "out-journal.txt",
    ],
    summary: "arrivals 2 relayed 2 ignored 0 left 3 commits 0 refusals 0\n",
};

/// One extender with two ports, and a capture for the first.
const ONE_EXTENDER: &[(&str, &str)] = &[(
    "t.toml",
    "[bridge]\nports = 1\n[[extender]]\nnumber = 1\non = \"b1\"\nports = 2\n[captures]\n\"x1.1\" = \"a.pcap\"\n",
)];

/// A broadcast of 60 bytes.
const AT_ONE_PORT: &[(&str, &str)] = &[(
    "a.pcap",
    "D4C3B2A1 0200 0400 8x00 FFFF0000 01000000 64000000 00000000 3C000000 3C000000 \
     FFFFFFFFFFFF 020000000001 0800 46x00",
)];

const UNTRACED: &[&str] = &["out-x1.1.pcap", "out-x1.2.pcap", "out-journal.txt"];

const TRACED: &[&str] = &[
    "out-x1.1.pcap",
    "out-x1.2.pcap",
    "out-journal.txt",
    "out-trace.txt",
];

const ONE_FRAME: &str = "arrivals 1 relayed 1 ignored 0 left 1 commits 0 refusals 0\n";

/// The same with each option.
pub(super) const ONE: [Run; 4] = [
    Run {
        words: "run t.toml",
        texts: ONE_EXTENDER,
        captures: AT_ONE_PORT,
        outputs: UNTRACED,
        summary: ONE_FRAME,
    },
    Run {
        words: "run t.toml --trace",
        texts: ONE_EXTENDER,
        captures: AT_ONE_PORT,
        outputs: TRACED,
        summary: ONE_FRAME,
    },
    Run {
        words: "run t.toml --seed 5",
        texts: ONE_EXTENDER,
        captures: AT_ONE_PORT,
        outputs: UNTRACED,
        summary: ONE_FRAME,
    },
    Run {
        words: "run t.toml --seed 5 --trace",
        texts: ONE_EXTENDER,
        captures: AT_ONE_PORT,
        outputs: TRACED,
        summary: ONE_FRAME,
    },
];

/// What comes to two ports of a tree: two frames of two VLANs, an answer and a broadcast.
const IN_A_TREE: &[(&str, &str)] = &[
    (
        "a.pcap",
        "D4C3B2A1 0200 0400 8x00 FFFF0000 01000000 64000000 00000000 0E000000 0E000000 \
         FFFFFFFFFFFF 020000000001 0800 65000000 00000000 12000000 12000000 \
         FFFFFFFFFFFF 020000000001 8100 0002 0800",
    ),
    (
        "b.pcap",
        "D4C3B2A1 0200 0400 8x00 FFFF0000 01000000 64000000 00000000 0E000000 0E000000 \
         020000000001 020000000002 0800 66000000 00000000 0E000000 0E000000 \
         FFFFFFFFFFFF 020000000002 0800",
    ),
];

/// An extender below another: a port goes down, VLANs come, and then groups don't suffice for the
/// port to go up again.
pub(super) const TREE: Run = Run {
    words: "run t.toml",
    texts: &[(
        "t.toml",
        "bridge = {ports = 2, groups = 4}\n\
        extender = [{number = 1, on = 'b1', ports = 3}, {number = 2, on = 'x1.3', ports = 2}]\n\
        command = [\n\
        {at = 1, op = 'down', port = 'x2.2'},\n\
        {at = 1, op = 'vlan', vid = 2, tagged = ['x1.1', 'x2.1']},\n\
        {at = 1, op = 'vlan', vid = 3, tagged = ['x1.2', 'x2.1', 'b2'], untagged = ['x1.1']},\n\
        {at = 2, op = 'up', port = 'x2.2'},\n\
        ]\n\
        captures = {'x1.1' = 'a.pcap', 'b2' = 'b.pcap'}\n",
    )],
    captures: IN_A_TREE,
    outputs: &[
        "out-b2.pcap",
        "out-x1.1.pcap",
        "out-x1.2.pcap",
        "out-x2.1.pcap",
        "out-x2.2.pcap",
        "out-journal.txt",
    ],
    summary: "arrivals 4 relayed 4 ignored 0 left 12 commits 3 refusals 1\n",
};

/// The same with control frames that are lost, late or come twice, in a drawn order and with a
/// trace.
pub(super) const LOSSY: Run = Run {
    words: "run t.toml --trace --seed 5",
    texts: &[(
        "t.toml",
        "bridge = {ports = 2, groups = 4}\n\
        links = {fate = 'PLTDPPLTDPPLTDPPLTDP'}\n\
        extender = [{number = 1, on = 'b1', ports = 3}, {number = 2, on = 'x1.3', ports = 2}]\n\
        command = [\n\
        {at = 0, op = 'down', port = 'x2.2', fate = 'LDTLDT'},\n\
        {at = 1, op = 'vlan', vid = 2, tagged = ['x1.1', 'x2.1'], fate = 'PPLLL'},\n\
        {at = 1, op = 'up', port = 'x2.2', fate = 'TTTDDD'},\n\
        ]\n\
        captures = {'x1.1' = 'a.pcap', 'b2' = 'b.pcap'}\n",
    )],
    captures: IN_A_TREE,
    outputs: &[
        "out-b2.pcap",
        "out-x1.1.pcap",
        "out-x1.2.pcap",
        "out-x2.1.pcap",
        "out-x2.2.pcap",
        "out-journal.txt",
        "out-trace.txt",
    ],
    summary: "arrivals 4 relayed 4 ignored 0 left 9 commits 3 refusals 0\n",
};

/// Two bridges with a wire between them, and counters: the frames of `BARE`, each of which crosses
/// it.
pub(super) const NET: Run = Run {
    words: "net n.toml --counters",
    texts: &[
        (
            "n.toml",
            "bridge = [{name = 'a', topology = 't.toml'}, {name = 'b', topology = 'u.toml'}]\n\
             wire = [{a = 'a:b2', b = 'b:b1'}]\n",
        ),
        ("t.toml", "bridge.ports = 2\ncaptures.b1 = 'a.pcap'\n"),
        ("u.toml", "bridge.ports = 2\ncaptures.b2 = 'b.pcap'\n"),
    ],
    captures: AT_TWO_PORTS,
    outputs: &[
        "a-b1.pcap",
        "a-b2.pcap",
        "a-journal.txt",
        "a-counters.txt",
        "b-b1.pcap",
        "b-b2.pcap",
        "b-journal.txt",
        "b-counters.txt",
    ],
    summary: "arrivals 4 relayed 4 ignored 0 left 4 commits 0 refusals 0\n",
};
