// Worked texts of profiles: read, written and refused.
ghost use Rattle.std.specs.Prelude.{◌<◌, ◌^◌, length};

use crate::{ProfileRefusal, read_profile, write_profile};
use plan_core::{Edge, Node};
use std::alloc::Global;
use std::test::Fail;

const EMPTY: &str = "halo-profile 1\ndistance 0\nend\n";

const TWO_CONTEXTS: &str =
    "halo-profile 1\ndistance 4\ncontext 0 100 900 00010110 00010174 000101c0\n\
context 1 100 900 00010114 00010198 000101c0\nedge 0 0 792\nedge 0 1 200\nedge 1 1 792\nend\n";

const WIDEST: &str = "halo-profile 1\ndistance 4096\ncontext 0 17592186044416 17592186044416\n\
context 1 0 0 ffffffff 00000000\nedge 0 1 17592186044416\nend\n";

// Why a text is refused.
fn refusal_of(alloc: Global, text: &[u8]) -> Option<ProfileRefusal>
    requires { length text.now < 2 ^ 32 }
{
    match read_profile(alloc, text) {
        Ok(_) => None,
        Err(refusal) => Some(refusal),
    }
}

#[test]
fn writes_back_what_it_read(rt: HostRuntime) -> Result<(), Fail> {
    for text in [EMPTY, TWO_CONTEXTS, WIDEST] {
        let profile = read_profile(rt.alloc(), text.as_bytes())?;
        let written = write_profile(rt.alloc(), &profile)?;
        assert_eq!(rt; written.as_slice(), text.as_bytes());
    }
    Ok(())
}

#[test]
fn reads_a_worked_profile(rt: HostRuntime) -> Result<(), Fail> {
    let profile = read_profile(rt.alloc(), TWO_CONTEXTS.as_bytes())?;
    assert_eq!(rt; profile.distance, 4);
    let contexts = profile.contexts.as_slice();
    assert_eq!(rt; contexts.len(), 2);
    assert_eq!(rt;
        contexts[1].as_slice(),
        [0x10114, 0x10198, 0x101c0].as_slice()
    );
    let node = Node {
        grants: 100,
        accesses: 900,
    };
    assert_eq!(rt; profile.graph.nodes.as_slice(), [node, node].as_slice());
    let edge = |low, high, weight| Edge { low, high, weight };
    let edges = [edge(0, 0, 792), edge(0, 1, 200), edge(1, 1, 792)];
    assert_eq!(rt; profile.graph.edges.as_slice(), edges.as_slice());
    Ok(())
}

#[test]
fn refuses_at_the_first_bad_line(rt: HostRuntime) {
    let cases = [
        ("", 1),
        ("halo-profile 2\ndistance 4\nend\n", 1),
        ("halo-profile 1\n", 2),
        ("halo-profile 1\ndistance 4097\nend\n", 2),
        ("halo-profile 1\ndistance 4\n", 3),
        ("halo-profile 1\ndistance 4\nend", 3),
        ("halo-profile 1\ndistance 4\nend\n\n", 4),
        ("halo-profile 1\ndistance 4\ncontext 1 1 0\nend\n", 3),
        ("halo-profile 1\ndistance 4\ncontext 0 1 0 \nend\n", 3),
        (
            "halo-profile 1\ndistance 4\ncontext 0 1 0 0001011\nend\n",
            3,
        ),
        (
            "halo-profile 1\ndistance 4\ncontext 0 1 0 00010110 00010114 00010110\nend\n",
            3,
        ),
        (
            "halo-profile 1\ndistance 4\ncontext 0 17592186044417 0\nend\n",
            3,
        ),
        (
            "halo-profile 1\ndistance 4\ncontext 0 1 17592186044417\nend\n",
            3,
        ),
        (
            "halo-profile 1\ndistance 4\ncontext 0 1 0\nedge 0 0 0\nend\n",
            4,
        ),
        (
            "halo-profile 1\ndistance 4\ncontext 0 1 0\nedge 0 1 5\nend\n",
            4,
        ),
        (
            "halo-profile 1\ndistance 4\ncontext 0 1 0\nedge 0 0 17592186044417\nend\n",
            4,
        ),
        (
            "halo-profile 1\ndistance 4\ncontext 0 1 0\nedge 0 0 5\nedge 0 0 5\nend\n",
            5,
        ),
        (
            "halo-profile 1\ndistance 4\ncontext 0 1 0\nedge 0 0 5\ncontext 1 1 0\nend\n",
            5,
        ),
        (
            "halo-profile 1\ndistance 4\ncontext 0 1 0\ncontext 1 1 0\nedge 1 0 5\nend\n",
            5,
        ),
        (
            "halo-profile 1\ndistance 4\ncontext 0 1 0\ncontext 1 1 0\nedge 1 1 5\nedge 0 1 5\nend\n",
            6,
        ),
    ];
    for (text, line) in cases {
        assert_eq!(rt;
            refusal_of(rt.alloc(), text.as_bytes()),
            Some(ProfileRefusal::Line(line)),
            "{text}"
        );
    }
}

#[test]
fn shows_refusals(rt: HostRuntime) -> Result<(), Fail> {
    let cases = [
        (ProfileRefusal::Line(3), "line 3"),
        (ProfileRefusal::Memory, "out of memory"),
    ];
    for (refusal, text) in cases {
        assert_eq!(rt; refusal.to_string(rt.alloc())?.as_str(), text);
    }
    Ok(())
}
