// The writer of a profile's text.
ghost use Rattle.std.specs.Prelude.{◌≡◌, ◌<◌, ◌++◌, length, map, slice_get, Some, IfOk, OnOk};
ghost use Rattle.std.specs.List.{flat_map};
ghost use Rattle.plan_core.specs.declared.profiles.Node.{Node as NodeValue};
ghost use Rattle.profile_text.specs.declared.lines.TextLine.TheVariants.{Head, Distance, Granted, Joined, End};
ghost use Rattle.profile_text.specs.Profile.{field_text, addr_text, line_text, text_of, context_line, context_lines};
ghost use Rattle.profile_text.specs.Profile.{profile_text, IsProfile};

use plan_core::{Context, Edge, Node, Profile};
use std::alloc::{AllocError, Global};
use text_fields::{push_decimal, push_hex};

// Writes a field in decimal and the byte behind it.
fn write_field(alloc: Global, out: &mut Vec<u8>, number: u64, end: u8) -> Result<(), AllocError>
    ensures { OnOk result (out.new.items ≡ out.old.items ++ field_text number end) }
{
    push_decimal(alloc, out, number)?;
    out.push(end)?;
    Ok(())
}

// Writes the line of a distance.
#[tactic(auto, unfolding(crate::specs::Profile::line_text))]
fn write_distance(alloc: Global, out: &mut Vec<u8>, distance: u32) -> Result<(), AllocError>
    ensures { OnOk result (out.new.items ≡ out.old.items ++ line_text (Distance distance)) }
{
    out.extend_from_slice(b"distance ")?;
    write_field(alloc, out, u64::from(distance), b'\n')?;
    Ok(())
}

// Writes addresses, each behind a space.
fn write_addrs(out: &mut Vec<u8>, addrs: &[u32]) -> Result<(), AllocError>
    ensures { OnOk result (out.new.items ≡ out.old.items ++ flat_map addr_text addrs.now) }
{
    for addr in addrs {
        out.push(b' ')?;
        push_hex(out, *addr)?;
    }
    Ok(())
}

// Writes the line of a context.
#[tactic(auto, unfolding(crate::specs::Profile::line_text))]
fn write_context(
    alloc: Global,
    out: &mut Vec<u8>,
    number: usize,
    context: &Context,
    node: Node,
) -> Result<(), AllocError>
    ensures { OnOk result (out.new.items ≡ out.old.items ++ line_text (context_line number context.now node)) }
{
    out.extend_from_slice(b"context ")?;
    write_field(alloc, out, number as u64, b' ')?;
    write_field(alloc, out, node.grants, b' ')?;
    push_decimal(alloc, out, node.accesses)?;
    write_addrs(out, context.as_slice())?;
    out.push(b'\n')?;
    Ok(())
}

// Writes the lines of contexts, which are as many as the nodes.
fn write_contexts(
    alloc: Global,
    out: &mut Vec<u8>,
    contexts: &[Context],
    nodes: &[Node],
) -> Result<(), AllocError>
    requires { length nodes.now ≡ length contexts.now }
    ensures { OnOk result (out.new.items ≡ out.old.items ++ text_of (context_lines 0 contexts.now nodes.now)) }
{
    for at in 0..contexts.len() {
        write_context(alloc, out, at, &contexts[at], nodes[at])?;
    }
    Ok(())
}

// Writes the line of an edge.
#[tactic(auto, unfolding(crate::specs::Profile::line_text))]
fn write_edge(alloc: Global, out: &mut Vec<u8>, edge: Edge) -> Result<(), AllocError>
    ensures { OnOk result (out.new.items ≡ out.old.items ++ line_text (Joined edge)) }
{
    out.extend_from_slice(b"edge ")?;
    write_field(alloc, out, u64::from(edge.low), b' ')?;
    write_field(alloc, out, u64::from(edge.high), b' ')?;
    write_field(alloc, out, edge.weight, b'\n')?;
    Ok(())
}

// Writes the lines of edges.
fn write_edges(alloc: Global, out: &mut Vec<u8>, edges: &[Edge]) -> Result<(), AllocError>
    ensures { OnOk result (out.new.items ≡ out.old.items ++ text_of (map Joined edges.now)) }
{
    for edge in edges {
        write_edge(alloc, out, *edge)?;
    }
    Ok(())
}

// Writes the first line.
#[tactic(auto, unfolding(crate::specs::Profile::line_text))]
fn write_head(out: &mut Vec<u8>) -> Result<(), AllocError>
    ensures { OnOk result (out.new.items ≡ out.old.items ++ line_text Head) }
{
    out.extend_from_slice(b"halo-profile 1\n")?;
    Ok(())
}

// Writes the last line.
#[tactic(auto, unfolding(crate::specs::Profile::line_text))]
fn write_end(out: &mut Vec<u8>) -> Result<(), AllocError>
    ensures { OnOk result (out.new.items ≡ out.old.items ++ line_text End) }
{
    out.extend_from_slice(b"end\n")?;
    Ok(())
}

/// The text of a profile, which `read_profile` reads back as the profile.
pub fn write_profile(alloc: Global, profile: &Profile) -> Result<Vec<u8>, AllocError>
    requires { IsProfile profile.now }
    ensures { IfOk result (λ text. text.items ≡ profile_text profile.now) }
{
    let mut out = Vec::new(alloc);
    write_head(&mut out)?;
    write_distance(alloc, &mut out, profile.distance)?;
    let nodes = profile.graph.nodes.as_slice();
    write_contexts(alloc, &mut out, profile.contexts.as_slice(), nodes)?;
    write_edges(alloc, &mut out, profile.graph.edges.as_slice())?;
    write_end(&mut out)?;
    Ok(out)
}
