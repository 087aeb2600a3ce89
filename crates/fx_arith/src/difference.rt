ghost use Rattle.std.specs.Prelude.{◌≡◌, ◌-ℤ◌};

/// How far `to` lies beyond `from`, exactly.
pub fn span(from: i32, to: i32) -> i64
    ensures { result ≡ to -ℤ from }
{
    i64::from(to) - i64::from(from)
}
