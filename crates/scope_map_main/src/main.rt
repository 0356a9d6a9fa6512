#![tactic(auto)]
// What `ScopeMap` gives in the cases that its document names.
ghost use Rattle.std.specs.Prelude.{◌<◌};
ghost use Rattle.scope_map.specs.Hints.{Roomy};
ghost use Rattle.scope_map.specs.Held.{Held};
ghost use Rattle.scope_map_main.specs.States.{two_layers, replaced, Holds};

use scope_map::{Found, ScopeMap};
use std::io;

fn show_found(rt: &impl Print, f: Option<Found>) -> io::Result<()> {
    match f {
        Some(found) => print!(rt; " layer={} value={}", found.layer, found.value),
        None => print!(rt; " layer=- value=-"),
    }
}

fn show_distance(rt: &impl Print, d: Option<u32>) -> io::Result<()> {
    match d {
        Some(layers) => print!(rt; " down={layers}"),
        None => print!(rt; " down=-"),
    }
}

// The newest layer and value of a name, and how many layers down it lies.
fn show_name(rt: &impl Print, m: ScopeMap, t: &[u32; 13312], name: u32) -> io::Result<()>
    requires { Roomy m.length t.now }
{
    show_found(rt, m.get(t, name))?;
    show_distance(rt, m.depth_of(t, name))
}

fn show_row(rt: &impl Print, m: ScopeMap, t: &[u32; 13312], i: usize) -> io::Result<()>
    requires { (i < m.length) × Roomy m.length t.now }
{
    let row = m.row_at(t, i);
    print!(rt; " {}", row.name)
}

// The names of the newest layer, in the order they were defined.
fn show_newest_layer(rt: &impl Print, m: ScopeMap, t: &[u32; 13312]) -> io::Result<()>
    requires { Roomy m.length t.now }
{
    for i in m.newest_layer(t)..m.length {
        show_row(rt, m, t, i)?;
    }
    Ok(())
}

fn show(rt: &impl Print, m: ScopeMap, t: &[u32; 13312]) -> io::Result<()>
    requires { Roomy m.length t.now }
{
    print!(rt; "depth={}", m.depth())?;
    show_name(rt, m, t, 7)?;
    print!(rt; " newest")?;
    show_newest_layer(rt, m, t)?;
    print!(rt; "\n")
}

// The name 7 in two layers.
fn two_layers(t: &mut [u32; 13312]) -> ScopeMap
    ensures { Held result t.new two_layers }
{
    let a = ScopeMap::new();
    let b = a.define(t, 7, 70);
    let c = b.push_layer();
    c.define(t, 7, 71)
}

// Another name after it, and its value replaced: the order stays.
fn replaced(m: ScopeMap, t: &mut [u32; 13312]) -> ScopeMap
    requires { Held m t.old two_layers }
    ensures { Held result t.new replaced }
{
    let a = m.define(t, 6, 60);
    a.define(t, 7, 72)
}

fn removed(m: ScopeMap, t: &mut [u32; 13312]) -> ScopeMap
    requires { Holds m t.old }
    ensures { Holds result t.new }
{
    m.remove(t, 7)
}

fn popped(m: ScopeMap, t: &mut [u32; 13312]) -> ScopeMap
    requires { Holds m t.old }
    ensures { Holds result t.new }
{
    m.pop_layer(t)
}

// A name leaves the newest layer alone; the bottom layer is never popped.
fn main(rt: HostRuntime) -> io::Result<()> {
    let mut t = [0u32; 13312];
    let a = two_layers(&mut t);
    show(&rt, a, &t)?;
    let b = replaced(a, &mut t);
    show(&rt, b, &t)?;
    let c = removed(b, &mut t);
    show(&rt, c, &t)?;
    let d = removed(c, &mut t);
    show(&rt, d, &t)?;
    let e = popped(d, &mut t);
    show(&rt, e, &t)?;
    let f = popped(e, &mut t);
    show(&rt, f, &t)?;
    let g = removed(f, &mut t);
    show(&rt, g, &t)
}
