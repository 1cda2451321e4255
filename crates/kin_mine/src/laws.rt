//! Laws of the definitions, each the contract of a function that does nothing.

ghost use Rattle.kin_mine.specs.Miners.{QuietIsResult};

/// Where nobody is active, the values of a miner that stands for a graph are the definitions' on it.
pub fn miner_laws()
    ensures { QuietIsResult }
{}
