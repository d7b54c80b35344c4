//! Tests of the tile file on drawn tiles: each is read and written as these very bytes, and with a byte changed it is
//! refused, or read as another tile that writes the changed bytes.
#![tactic(auto)]

#[cfg(test)]
mod draws;
