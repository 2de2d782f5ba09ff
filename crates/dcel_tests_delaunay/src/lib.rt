//! Tests of triangulations, without and with constraints: each request for memory refused in turn, and
//! calls that no program and no binding makes. What triangulations are is tested in `bindings` and by the
//! cases of programs.
#![tactic(auto)]

#[cfg(test)]
mod circles;
#[cfg(test)]
mod constrained;
#[cfg(test)]
mod crossings;
#[cfg(test)]
mod joins;
#[cfg(test)]
mod memory;
#[cfg(test)]
mod places;
#[cfg(test)]
mod predicates;
