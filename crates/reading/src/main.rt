// Reads numbers at a base and prints, a line each, the number of the refusal and the value.
#![tactic(auto)]

ghost use Rattle.std.specs.Prelude.{◌≤◌};
ghost use Rattle.rules.specs.Numbers.{magnitude_limit};

use std::io::Result;

fn print_value(rt: &impl Print, v: i64) -> Result<()> {
    if v < 0 {
        print!(rt; "-")?;
    }
    let size = v.unsigned_abs();
    println!(rt; "{size}")
}

fn show(rt: &impl Print, value: i64, decimals: u64, base_decimals: u64) -> Result<()> {
    match numbers::read_number(value, decimals, base_decimals) {
        Ok(v) => {
            print!(rt; "0 ")?;
            print_value(rt, v)
        }
        Err(unreadable) => {
            let number = unreadable.number();
            println!(rt; "{number} 0")
        }
    }
}

// The negative of a magnitude.
fn below_zero(size: u64) -> i64
    requires { size ≤ magnitude_limit }
{
    let v = size as i64;
    -v
}

// 10^17 and 10^17 - 1 at one decimal more.
fn at_the_limit(rt: &impl Print) -> Result<()> {
    let power = numbers::ten_to(17);
    show(rt, power as i64, 0, 1)?;
    show(rt, (power - 1) as i64, 0, 1)?;
    show(rt, below_zero(power), 0, 1)?;
    show(rt, below_zero(power - 1), 0, 1)
}

// Halves, and their neighbours, above and below zero.
fn halves(rt: &impl Print) -> Result<()> {
    show(rt, 5, 1, 0)?;
    show(rt, 15, 1, 0)?;
    show(rt, 14, 1, 0)?;
    show(rt, -5, 1, 0)?;
    show(rt, -15, 1, 0)?;
    show(rt, -14, 1, 0)?;
    show(rt, -16, 1, 0)
}

// 0.45 reads 0.5, then 1; straight to the ancestor it would read 0.
fn twice(rt: &impl Print) -> Result<()> {
    show(rt, 45, 2, 1)?;
    show(rt, 5, 1, 0)?;
    show(rt, 45, 2, 0)
}

// 17 and 18 decimals, of the number and of the base.
fn decimals(rt: &impl Print) -> Result<()> {
    show(rt, 1, 17, 17)?;
    show(rt, 1, 18, 17)?;
    show(rt, 1, 17, 18)?;
    let half = numbers::ten_to(17) / 2;
    show(rt, half as i64, 17, 0)?;
    show(rt, (half - 1) as i64, 17, 0)?;
    show(rt, 9, 0, 17)?;
    show(rt, 10, 0, 17)
}

// Magnitudes of 10^18 - 1 and 10^18.
fn magnitudes(rt: &impl Print) -> Result<()> {
    let limit = numbers::magnitude_limit();
    show(rt, (limit - 1) as i64, 0, 0)?;
    show(rt, limit as i64, 0, 0)?;
    show(rt, below_zero(limit - 1), 0, 0)?;
    show(rt, below_zero(limit), 0, 0)?;
    show(rt, (limit - 1) as i64, 17, 0)?;
    show(rt, below_zero(limit - 1), 1, 0)
}

// The least and the greatest i64.
fn ends(rt: &impl Print) -> Result<()> {
    show(rt, -9223372036854775808, 0, 0)?;
    show(rt, 9223372036854775807, 17, 17)
}

// Zeros added.
fn zeros(rt: &impl Print) -> Result<()> {
    show(rt, -7, 1, 3)?;
    show(rt, 0, 0, 17)
}

fn main(rt: HostRuntime) -> Result<()> {
    at_the_limit(&rt)?;
    halves(&rt)?;
    twice(&rt)?;
    decimals(&rt)?;
    magnitudes(&rt)?;
    ends(&rt)?;
    zeros(&rt)
}
