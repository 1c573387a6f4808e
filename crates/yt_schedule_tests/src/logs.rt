//! Logs as they are told, and a segment's line.
use std::test::Fail;
use yt_base::Text;
use yt_log::{Job, Log, Segment, put_end, put_segment};

const FIRST: Job = Job { task: 1, number: 1 };

const SECOND: Job = Job { task: 2, number: 1 };

#[test]
fn tells_tick_by_tick(rt: HostRuntime) -> Result<(), Fail> {
    let mut log = Log::new(rt.alloc());
    log.tell(None)?;
    log.tell(Some(FIRST))?;
    log.tell(Some(FIRST))?;
    log.tell(Some(SECOND))?;
    log.tell(Some(FIRST))?;
    log.tell(None)?;
    log.tell(Some(FIRST))?;
    assert_eq!(rt; log.until(), 7);
    assert_eq!(rt; log.len(), 4);
    assert_eq!(rt;
        log.at(1),
        Segment {
            from: 3,
            to: 4,
            job: SECOND
        }
    );
    assert_eq!(rt;
        log.segments(),
        [
            Segment {
                from: 1,
                to: 3,
                job: FIRST
            },
            Segment {
                from: 3,
                to: 4,
                job: SECOND
            },
            Segment {
                from: 4,
                to: 5,
                job: FIRST
            },
            Segment {
                from: 6,
                to: 7,
                job: FIRST
            },
        ]
        .as_slice()
    );
    Ok(())
}

#[test]
fn tells_stretches(rt: HostRuntime) -> Result<(), Fail> {
    let mut log = Log::new(rt.alloc());
    log.tell_idle(5);
    log.tell_run(FIRST, 3)?;
    log.tell_run(FIRST, 2)?;
    log.tell_idle(9);
    log.tell_run(SECOND, 0)?;
    log.tell_idle(20);
    log.tell_run(FIRST, 1)?;
    assert_eq!(rt; log.until(), 21);
    assert_eq!(rt;
        log.segments(),
        [
            Segment {
                from: 5,
                to: 10,
                job: FIRST
            },
            Segment {
                from: 20,
                to: 21,
                job: FIRST
            },
        ]
        .as_slice()
    );
    Ok(())
}

#[test]
fn segments_are_put(rt: HostRuntime) -> Result<(), Fail> {
    let job = Job { task: 2, number: 7 };
    let mut text = Text::new(rt.alloc());
    let first = Segment {
        from: 0,
        to: 12,
        job,
    };
    put_segment(&mut text, b"cam.frame", &first)?;
    put_end(&mut text, 12)?;
    assert_eq!(rt;
        text.as_slice(),
        b"run 0 12 cam.frame 7\nend 12\n".as_slice()
    );
    Ok(())
}
