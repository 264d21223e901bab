//! Tests of the order lists: the search for left parents, a list with many elements, the two orders of
//! runs of dags drawn by hand, in several orders of the starts, and shared lists, with their callers.
//! Beside them those of the dag itself: which instances precede which, and first races.
#![tactic(auto)]

#[cfg(test)]
mod dag_rows;
#[cfg(test)]
mod list_rows;
#[cfg(test)]
mod many_rows;
#[cfg(test)]
mod noted;
#[cfg(test)]
mod parent_rows;
#[cfg(test)]
mod plays;
#[cfg(test)]
mod range_rows;
#[cfg(test)]
mod replay_rows;
#[cfg(test)]
mod shared_lists;
#[cfg(test)]
mod shared_rows;
