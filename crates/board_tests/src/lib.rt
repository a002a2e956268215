// Tests of the board: calls with what each comes to, made one by one and as a rehearsal, and whether a sheet is proved.
#![tactic(auto)]

#[cfg(test)]
mod calls;
#[cfg(test)]
mod tests;
