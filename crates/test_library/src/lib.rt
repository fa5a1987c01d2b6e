//! Worked rows of the crates below the commands: calls whose answers were found by hand, which no command shows.
#![tactic(auto)]

#[cfg(test)]
mod block_calls;
#[cfg(test)]
mod book_answers;
#[cfg(test)]
mod book_rows;
#[cfg(test)]
mod call_sets;
#[cfg(test)]
mod field_ranges;
#[cfg(test)]
mod gate_rows;
#[cfg(test)]
mod group;
#[cfg(test)]
mod interlock_rows;
#[cfg(test)]
mod plant_steps;
#[cfg(test)]
mod range_rows;
#[cfg(test)]
mod sink_rows;
#[cfg(test)]
mod station_rows;
#[cfg(test)]
mod stations;
#[cfg(test)]
mod table_entries;
#[cfg(test)]
mod texts;
#[cfg(test)]
mod token_places;
#[cfg(test)]
mod world_rows;
