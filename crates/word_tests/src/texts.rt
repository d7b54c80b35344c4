//! The text of a report.

use build_report::{BuildReport, list_text, report_text};
use graph_id::GraphId;
use std::test::Fail;

#[test]
fn two_nodes(rt: HostRuntime) -> Result<(), Fail> {
    let report = BuildReport {
        edges: [0, 0, 2],
        format: 1,
        kept_pieces: 1,
        length_cm: [0, 0, 22264],
        masks: 0,
        missing_refs: 0,
        modes: 1,
        nodes: [0, 0, 2],
        nodes_read: 2,
        pieces: 1,
        relations_read: 0,
        runs: 1,
        sequences: 0,
        shortcuts: [0, 0, 0],
        skipped: [0, 0, 0, 0, 0, 0, 0, 0, 0, 0],
        tiles: [0, 0, 1],
        transitions: 0,
        ways: 1,
        ways_read: 1,
    };
    let text = report_text(rt.alloc(), &report)?;
    assert!(rt;
        text.as_slice()
            == b"{\"edges\":[0,0,2],\"format\":1,\"kept_pieces\":1,\"length_cm\":[0,0,22264],\"masks\":0,\"missing_refs\":0,\"modes\":1,\"nodes\":[0,0,2],\"nodes_read\":2,\"pieces\":1,\"relations_read\":0,\"runs\":1,\"sequences\":0,\"shortcuts\":[0,0,0],\"skipped\":{},\"tiles\":[0,0,1],\"transitions\":0,\"ways\":1,\"ways_read\":1}\n".as_slice()
    );
    Ok(())
}

#[test]
fn six_motorway_nodes(rt: HostRuntime) -> Result<(), Fail> {
    let alloc = rt.alloc();
    let ids = [
        GraphId::make(0, 2024, 0)?,
        GraphId::make(0, 2025, 0)?,
        GraphId::make(2, 519_120, 0)?,
    ];
    let bytes = list_text(alloc, &ids, &[544, 552, 240])?;
    let lines = b"mjolnir-tiles 1\n0/002/024.gph 544\n0/002/025.gph 552\n2/000/519/120.gph 240\n";
    assert!(rt; bytes.as_slice() == lines.as_slice());
    Ok(())
}
