//! Lines and exit statuses of the outcomes that no worked row shows.

use hf_store::Reason;
use hf_text::{Outcome, line_of, status};
use std::test::Fail;

#[test]
fn outcomes_have_their_lines(rt: HostRuntime) -> Result<(), Fail> {
    let refused = |why| Outcome::Refused { edit: 2, why };
    let cases = [
        (refused(Reason::KindsFull), 4, "heif: edit 2: KindsFull\n"),
        (refused(Reason::ItemsFull), 4, "heif: edit 2: ItemsFull\n"),
        (refused(Reason::BodyFull), 4, "heif: edit 2: BodyFull\n"),
        (refused(Reason::MetaFull), 4, "heif: edit 2: MetaFull\n"),
        (
            Outcome::TooLong { source: 0 },
            6,
            "heif: source 0 is too long\n",
        ),
        (Outcome::NoMemory, 9, "heif: no memory\n"),
    ];
    for (outcome, number, text) in &cases {
        let line = line_of(rt.alloc(), outcome);
        assert_eq!(rt; line.ok().ok_or("there is memory")?.as_str(), *text);
        assert_eq!(rt; status(outcome), *number);
    }
    Ok(())
}
