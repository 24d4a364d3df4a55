// Numbers that look random: a linear congruential generator, which gives the same ones on every run.
ghost use Rattle.std.specs.Prelude.{◌<◌, ◌≤◌};

// The next number below a limit.
pub fn draw(random: &mut u64, limit: u32) -> u32
    requires { 1 ≤ limit }
    ensures { result < limit }
{
    let next = (*random % 2147483647 * 48271 + 12345) % 2147483647;
    *random = next;
    (next / 8 % limit as u64) as u32
}

// True once in so many times.
pub fn one_in(random: &mut u64, times: u32) -> bool
    requires { 1 ≤ times }
{
    draw(random, times) == 0
}
