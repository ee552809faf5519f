//! Tests of what stands at the edge of the program: the devices of the host (streams that fail, and files), the text of
//! journals, the words of the command line, and the sample program of a seed.
#![tactic(auto)]

#[cfg(test)]
mod journals;
#[cfg(test)]
mod lines;
#[cfg(test)]
mod ports;
#[cfg(test)]
mod texts;
