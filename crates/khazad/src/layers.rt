// What the layers of a round mean, however they are worked out.

ghost use Rattle.std.specs.Prelude.{◌≡◌};
ghost use Rattle.khazad.specs.Khazad.{γ, θ};
ghost use Rattle.khazad.specs.Blocks.{on_blocks};

// A way to work out the layers of a round, on blocks. All ways have one meaning, so an engine is written once for all.
pub trait Layers {
    // γ: the box S at every byte.
    fn gamma(block: u64) -> u64
        ensures { result ≡ on_blocks γ block };

    // θ: the bytes, as a row, times the matrix H.
    fn theta(block: u64) -> u64
        ensures { result ≡ on_blocks θ block };

    // γ, then θ. A way that can do both at once says how.
    fn theta_gamma(block: u64) -> u64
        ensures { result ≡ on_blocks (λ a. θ (γ a)) block }
    {
        Self::theta(Self::gamma(block))
    }
}
