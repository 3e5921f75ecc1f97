// Examples of what the library does, each proved safe and then run.
#![tactic(auto)]

#[cfg(test)]
mod of_graphs;
#[cfg(test)]
mod of_munch;
#[cfg(test)]
mod of_queues;
#[cfg(test)]
mod of_script;
#[cfg(test)]
mod of_tables;
