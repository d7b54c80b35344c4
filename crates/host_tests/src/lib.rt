//! Tests of `host_port`: what a host over files and a host in memory tell, do and say.
#![tactic(auto)]

#[cfg(test)]
mod hosts;
