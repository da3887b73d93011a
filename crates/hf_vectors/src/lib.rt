//! What no worked row of `hf_rows` can say, as tests: files of 4 GiB, lines that no small file brings about, and lists that
//! are copied.
#![tactic(auto)]

#[cfg(test)]
mod copies;
#[cfg(test)]
mod large;
#[cfg(test)]
mod lines;
#[cfg(test)]
mod making;
#[cfg(test)]
mod parts;
