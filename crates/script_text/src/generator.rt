// The generator's script.
ghost use Rattle.std.specs.Prelude.{◌≡◌, ◌+◌, ◌<◌, ◌≤◌, ◌++◌, IfOk, OnOk};
ghost use Rattle.script_text.specs.Generating.{next, drawn, opening, ending, put_text, ship_text, ship_draw, roll_text, move_text, move_host, turn_text, turn_course, generated};

use rep_types::{Bytes, Items, Memory};
use std::alloc::Global;
use std::io;
use std::io::Write;

// How far the generator has come.
#[derive(Clone, Copy)]
struct Course {
    // The state of the draws.
    x: u64,
    // The server of the region, 1 or 2.
    host: u64,
}

#[tactic(auto, unfolding(crate::specs::Generating::next))]
pub fn next(x: u64) -> u64
    ensures { result ≡ next x }
{
    x.wrapping_mul(6_364_136_223_846_793_005)
        .wrapping_add(1_442_695_040_888_963_407)
}

#[tactic(auto, unfolding(crate::specs::Generating::drawn))]
pub fn drawn(below: u64, x: u64) -> u64
    requires { 0 < below }
    ensures value { result ≡ drawn below x }
    ensures least { result < below }
{
    x / (1 << 33) % below
}

#[tactic(auto, unfolding(crate::specs::Generating::put_text))]
fn write_put(out: &mut Vec<u8>, i: u64, row: u64, host: u64) -> io::Result<()>
    ensures { OnOk result (out.new.items ≡ out.old.items ++ put_text i row host) }
{
    let tens = row / 10;
    let ones = row % 10;
    write!(out, "put a t k{tens}{ones} f:q@{i}=v{i}\nsync a {host}\n")
}

#[tactic(auto, unfolding(crate::specs::Generating::ship_text, crate::specs::Generating::ship_draw))]
fn write_ship(out: &mut Vec<u8>, i: u64, x: u64) -> io::Result<u64>
    ensures text { OnOk result (out.new.items ≡ out.old.items ++ ship_text i x) }
    ensures draw { IfOk result (λ after. after ≡ ship_draw i x) }
{
    if i % 20 != 0 {
        return Ok(x);
    }
    let after = next(x);
    let server = 1 + drawn(2, after);
    write!(out, "ship a 1 {server}\n")?;
    Ok(after)
}

#[tactic(auto, unfolding(crate::specs::Generating::roll_text))]
fn write_rolls(out: &mut Vec<u8>, i: u64) -> io::Result<()>
    ensures { OnOk result (out.new.items ≡ out.old.items ++ roll_text i) }
{
    if i % 500 != 0 {
        return Ok(());
    }
    write!(out, "roll a 1\nroll a 2\n")
}

#[tactic(auto, unfolding(crate::specs::Generating::move_text, crate::specs::Generating::move_host))]
fn write_move(out: &mut Vec<u8>, i: u64, host: u64) -> io::Result<u64>
    ensures text { OnOk result (out.new.items ≡ out.old.items ++ move_text i host) }
    ensures host { IfOk result (λ after. after ≡ move_host i host) }
{
    if i % 50 != 0 {
        return Ok(host);
    }
    let after = 3u64.saturating_sub(host);
    write!(out, "move a 1 {after}\n")?;
    Ok(after)
}

// The lines of the i-th time.
#[tactic(auto, unfolding(crate::specs::Generating::turn_text, crate::specs::Generating::turn_course))]
fn write_turn(out: &mut Vec<u8>, i: u64, course: Course) -> io::Result<Course>
    ensures text { OnOk result (out.new.items ≡ out.old.items ++ turn_text i course) }
    ensures course { IfOk result (λ after. after ≡ turn_course i course) }
{
    let x = next(course.x);
    write_put(out, i, drawn(64, x), course.host)?;
    let x = write_ship(out, i, x)?;
    write_rolls(out, i)?;
    let host = write_move(out, i, course.host)?;
    Ok(Course { x, host })
}

fn write_opening(out: &mut Vec<u8>) -> io::Result<()>
    ensures { OnOk result (out.new.items ≡ out.old.items ++ opening) }
{
    write!(
        out,
        "server a 1\nserver a 2\nserver b 1\ntable a t f/1\ntable b t f/1\nopen a 1 1\nopen b 1 1\npeer a 1 serial t\n"
    )
}

fn write_ending(out: &mut Vec<u8>) -> io::Result<()>
    ensures { OnOk result (out.new.items ≡ out.old.items ++ ending) }
{
    write!(out, "drain\nshow a t\nshow b t\n")
}

#[tactic(auto, unfolding(crate::specs::Generating::generated))]
fn write_script(out: &mut Vec<u8>, start: u64, size: u32) -> io::Result<()>
    ensures { OnOk result (out.new.items ≡ out.old.items ++ generated start size) }
{
    write_opening(out)?;
    let mut course = Course { x: start, host: 1 };
    for before in 0..size {
        course = write_turn(out, u64::from(before) + 1, course)?;
    }
    write_ending(out)
}

/// The script that a run of so many puts makes, whose rows and queues are drawn from this start.
pub fn generate(alloc: Global, start: u64, size: u32) -> Result<Bytes, Memory>
    ensures { IfOk result (λ script. script ≡ generated start size) }
{
    let mut out = Vec::new(alloc);
    match write_script(&mut out, start, size) {
        Ok(()) => Ok(Items::from_vec(out)),
        Err(_) => Err(Memory),
    }
}
