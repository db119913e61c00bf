use composed_play::play_board;
use history_check::check_order;
use history_core::Verdict;
use read_schedule::{ScheduleDocument, read_schedule};
use std::test::Fail;

/// The checker finds the orders of played boards lawful.
#[test]
fn orders_are_lawful(rt: HostRuntime) -> Result<(), Fail> {
    for document in [
        r#"{"kind":"board","opening":[0,0,0],"noise":[9,8,7],"limit":9,"plans":[[[1,1,1]],["read"]],
            "steps":[0,0,0,0,0,0,0,0,0,0,1,1,1,1,1,1,1,1,1,1]}"#,
        r#"{"kind":"board","opening":[0,0,0],"noise":[9,8,7],"limit":9,"plans":[[[1,1,1]],["read"]],
            "steps":[0,0,0,0,0,0,0,0,0,1,1,1,1,1,1,1,1,1,1]}"#,
        r#"{"kind":"board","opening":[0,0,0],"noise":[9,8,7],"limit":9,"plans":[[[1,1,1]],["read"]],
            "steps":[0,0,0,0]}"#,
        r#"{"kind":"board","opening":[0,0,0],"noise":[9,8,7],"terms":[
            {"limit":1,"plans":[[[1,1,1]],[]],"steps":[0,0,0,0,0,0,0,0,0,0]},
            {"limit":1,"plans":[["read",[3,3,3]],[[2,2,2]]],
             "steps":[1,1,1,1,1,1,1,1,1,1,0,0,0,0,0,0,0,0,0,0,0,0,0,0,0,0,0,0,0,0]}]}"#,
    ] {
        let Ok(document) = read_schedule(rt.alloc(), document.as_bytes()) else {
            panic!(&rt; "it isn't read");
        };
        match document {
            ScheduleDocument::Board {
                schedule,
                titled: _titled,
            } => {
                let Ok(report) = play_board(rt.alloc(), &schedule) else {
                    panic!(&rt; "it isn't played");
                };
                let verdict = check_order(&report.history, report.order.as_slice());
                assert!(rt; verdict == Verdict::Lawful);
            }
            _ => panic!(&rt; "another kind"),
        }
    }
    Ok(())
}
