//! Plans that are made of numbers, the same ones of each seed.

ghost use Rattle.std.specs.Prelude.{◌≡◌, ◌+◌, ◌%◌, ◌<◌, ◌≤◌, IfOk};
ghost use Rattle.zd_plain.specs.Plan.{IsPlan};
ghost use Rattle.zd_script.specs.Generator.{AreInDevice, IsWritten, draws_after, made, next_number};
ghost use Rattle.zd_script.specs.Generator.{operation_of_kind, request_of, what_made};

use std::alloc::Global;
use zd_base::Memory;
use zd_model::{Request, What};
use zd_plain::Plan;

/// All numbers are below this prime.
const MODULUS: u32 = 65_537;

/// A sequence of numbers, each of which gives the next.
#[derive(Drop)]
struct Numbers {
    last: u32,
    ghost small: { last < 65537 },
}

impl Numbers {
    /// The sequence of a seed, of which no number was drawn yet.
    fn of_seed(seed: u64) -> Numbers
        ensures { result.last ≡ seed % 65536 }
    {
        Numbers {
            last: (seed % 65_536) as u32,
        }
    }

    /// The next number.
    #[tactic(auto, unfolding(crate::specs::Generator::next_number))]
    fn draw(&mut self) -> u32
        ensures value { result ≡ next_number self.old.last }
        ensures last { self.new.last ≡ result }
        ensures small { result < 65537 }
    {
        self.last = (75 * self.last + 74) % MODULUS;
        self.last
    }
}

/// What a kind from 0 to 15 asks for.
fn what_of(kind: u32, block: u64, count: u32, seed: u32) -> What
    ensures { result ≡ what_made (operation_of_kind kind) block count seed }
{
    match kind {
        0..=7 => What::Write { block, count, seed },
        8..=12 => What::Read { block, count },
        13 | 14 => What::Discard { block, count },
        _ => What::Flush,
    }
}

/// The request that the next five numbers make.
fn next_request(numbers: &mut Numbers, number: u32, blocks: u64) -> Request
    requires { 1 ≤ blocks }
    ensures value { result ≡ request_of blocks number (draws_after numbers.old.last) }
    ensures last { numbers.new.last ≡ (draws_after numbers.old.last).count }
{
    let kind = numbers.draw() % 16;
    let caller = numbers.draw() % 4;
    let high = u64::from(numbers.draw());
    let low = u64::from(numbers.draw());
    let block = (u64::from(MODULUS) * high + low) % blocks;
    let most = 1 + u64::from(numbers.draw() % 8);
    let count = most.min(blocks - block) as u32;
    Request {
        caller: caller as u8,
        what: what_of(kind, block, count, number),
    }
}

/// A plan of `n` requests for a device of so many blocks, which a seed determines. They are of callers
/// 0 to 3, of all kinds, of at most 8 blocks each and within the device, and a write has its request's
/// number as its seed.
///
/// Each request takes five numbers of a sequence, whatever its kind. Up to 4,096 requests are within the
/// limits of a script.
pub fn make(alloc: Global, seed: u64, n: u32, blocks: u64) -> Result<Plan, Memory>
    requires { 1 ≤ blocks }
    ensures value { IfOk result (λ plan. plan ≡ made seed n blocks) }
    ensures plan { IfOk result IsPlan }
    ensures inside { IfOk result (AreInDevice blocks) }
    ensures script { IfOk result (λ plan. n ≤ 4096 → IsWritten plan) }
{
    let mut numbers = Numbers::of_seed(seed);
    let mut plan = Plan::new(alloc);
    for i in 0..n {
        plan.push(next_request(&mut numbers, i + 1, blocks))?;
    }
    Ok(plan)
}
