// What a walk goes by.
ghost use Rattle.walk_steps.specs.Given.{given, Fitting};

// A node table of `cap` nodes, the bits of a symbol, and the bytes of a query's block.
#[derive(Clone, Copy, Drop)]
pub struct Walk<'a> {
    pub nodes: &'a [u32],
    pub cap: usize,
    pub b: u32,
    pub bytes: &'a [u8],
    pub ghost fitting: { Fitting (given nodes.now cap b bytes.now) },
}
