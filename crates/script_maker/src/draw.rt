ghost use Rattle.std.specs.Prelude.{◌≡◌, ◌<◌, ◌^◌};
ghost use Rattle.script_maker.specs.Draw.{drawn, shown};

/// The number that is drawn after this one: a linear congruential generator below 2 ^ 31.
pub fn drawn(number: u32) -> u32
    requires { number < 2 ^ 31 }
    ensures next { result ≡ drawn number }
    ensures below { result < 2 ^ 31 }
{
    ((u64::from(number) * 1_103_515_245 + 12_345) % 2_147_483_648) as u32
}

/// What a drawn number is seen as: its high bits.
pub fn shown(number: u32) -> u32
    ensures { result ≡ shown number }
{
    number / 65_536
}
