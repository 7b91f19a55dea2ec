// What an operation gives at a tick, computed.
#![tactic(auto)]

ghost use Rattle.std.specs.Prelude.{◌≡◌, ◌<◌, get_or, pos};
ghost use Rattle.std.specs.Int.{w32};
ghost use Rattle.std.proofs.Common.{SFits};
ghost use Rattle.running.specs.Results.{result_of};
ghost use Rattle.results.specs.Parts.{of_two, of_inputs, input_at};

use counts::operations::{
    choose, constant, difference, greater, lesser, mean_of_four, negate, scale, sum,
};
use store::row::ROOM;

// A count of this tick; a channel that is not there counts 0.
fn channel(channels: &[i32], setting: u32) -> i32
    ensures { (result ≡ get_or channels.now setting (pos 0)) × SFits w32 result }
{
    let at = setting as usize;
    if at < channels.len() {
        return channels[at];
    }
    0
}

// The operations on two inputs; any other gives 0. Here and below a match by number is the catalogue's own table: functions kept in one
// would have to be of one kind.
fn of_two(operation: u32, a: i32, b: i32) -> i32
    ensures { (result ≡ of_two operation a b) × SFits w32 result }
{
    match operation {
        3 => difference(a, b),
        4 => sum(a, b),
        8 => greater(a, b),
        9 => lesser(a, b),
        _ => 0,
    }
}

// The operations on inputs. Asks: the setting has 16 bits.
fn of_inputs(operation: u32, setting: u32, a: i32, b: i32, c: i32, d: i32) -> i32
    requires { setting < 65536 }
    ensures { (result ≡ of_inputs operation setting a b c d) × SFits w32 result }
{
    match operation {
        5 => scale(a, setting),
        10 => choose(a, b, c),
        11 => mean_of_four(a, b, c, d),
        12 => negate(a),
        _ => of_two(operation, a, b),
    }
}

// What a row gives, of its inputs now and of what it would hold. An operation that is not listed gives 0.
// Asks: the setting has 16 bits, as in every label.
pub fn result(operation: u32, setting: u32, channels: &[i32], held: i32, x: [i32; ROOM]) -> i32
    requires { setting < 65536 }
    ensures { (result ≡ result_of operation setting channels.now held (input_at x)) × SFits w32 result }
{
    match operation {
        1 => channel(channels, setting),
        2 => constant(setting),
        6 => held,
        _ => of_inputs(operation, setting, x[0], x[1], x[2], x[3]),
    }
}
