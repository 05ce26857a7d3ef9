// Boards asked what no day file can ask: another number of cells, no making, a making that is refused.
// Nothing is tested here that no contract promises.
#![tactic(auto)]

#[cfg(test)]
mod tests;
