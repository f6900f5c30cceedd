// Masks: numbers whose bits stand for names, states or propositions.
ghost use Rattle.std.specs.Prelude.{◌≡◌, ◌-◌, ◌/◌, ◌%◌, ◌^◌, ◌<◌, ◌≤◌, ◌==◌};

// The mask of the lowest `count` bits.
pub fn lowest(count: usize) -> u16
    requires { count ≤ 16 }
    ensures { result ≡ 2 ^ count - 1 }
{
    if count == 16 {
        0xffff
    } else {
        (1 << count) - 1
    }
}

// Whether bit `k` of the mask is set.
pub fn has(mask: u64, k: usize) -> bool
    requires { k < 64 }
    ensures { result ≡ (mask / 2 ^ k % 2 == 1) }
{
    (mask >> k) % 2 == 1
}
