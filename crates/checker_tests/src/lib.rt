// Tests of the check: sheets with the verdict on each, on the scale of all values.
#![tactic(auto)]

#[cfg(test)]
mod tests {
    use checker::*;
    use message::Atom;
    use scale::{TwoValued, Whole};
    use sheet::*;
    use std::test::Fail;

    // What is expected: lines are counted from 0 among their like, and roles and steps too.
    #[derive(Clone, Copy)]
    enum Expected {
        Accepted,
        Known(usize),
        Ranked(usize),
        Sealed(usize, &'static [Option<Atom>]),
        Completed,
        Acted(usize, usize, u8, &'static [Option<Atom>]),
    }

    const CASES: [(&str, Expected); 49] = [
        // The silence order.
        (
            "link sheet 1\nagents\nagent G\nagent B\ntexts\ntext date\nroles\nrole bus B\nvar t text\nfresh n\nsend pair self n\nrecv seal self G pair G pair n t\nsig set self G n t\nrole ground G\nvar j agent\nvar c nonce\nvar t text\nrecv pair j c\nsig told self j c t\nsend seal self j pair self pair c t\nnonces\nnonce na B bus n\nknown\nclaim\nholds set B G na date needs told G B na date\nranks\nrank 0 key G B\nseal 0 G B pair G pair na date\nmark 0 set B G na date\nback 2 5 7 21 23 24 26\n",
            Expected::Accepted,
        ),
        // The ground sends before it signals.
        (
            "link sheet 1\nagents\nagent G\nagent B\ntexts\ntext date\nroles\nrole bus B\nvar t text\nfresh n\nsend pair self n\nrecv seal self G pair G pair n t\nsig set self G n t\nrole ground G\nvar j agent\nvar c nonce\nvar t text\nrecv pair j c\nsend seal self j pair self pair c t\nsig told self j c t\nnonces\nnonce na B bus n\nknown\nclaim\nholds set B G na date needs told G B na date\nranks\nrank 0 key G B\nseal 0 G B pair G pair na date\nmark 0 set B G na date\nback 2 5 7 21 23 24 26\n",
            Expected::Acted(
                1,
                1,
                0,
                &[
                    Some(Atom::Agent(1)),
                    Some(Atom::Nonce(0)),
                    Some(Atom::Text(0)),
                ],
            ),
        ),
        // The key is positive.
        (
            "link sheet 1\nagents\nagent G\nagent B\ntexts\ntext date\nroles\nrole bus B\nvar t text\nfresh n\nsend pair self n\nrecv seal self G pair G pair n t\nsig set self G n t\nrole ground G\nvar j agent\nvar c nonce\nvar t text\nrecv pair j c\nsig told self j c t\nsend seal self j pair self pair c t\nnonces\nnonce na B bus n\nknown\nclaim\nholds set B G na date needs told G B na date\nranks\nrank 1 key G B\nseal 0 G B pair G pair na date\nmark 0 set B G na date\nback 2 5 7 21 23 24 26\n",
            Expected::Sealed(0, &[]),
        ),
        // The completion is positive.
        (
            "link sheet 1\nagents\nagent G\nagent B\ntexts\ntext date\nroles\nrole bus B\nvar t text\nfresh n\nsend pair self n\nrecv seal self G pair G pair n t\nsig set self G n t\nrole ground G\nvar j agent\nvar c nonce\nvar t text\nrecv pair j c\nsig told self j c t\nsend seal self j pair self pair c t\nnonces\nnonce na B bus n\nknown\nclaim\nholds set B G na date needs told G B na date\nranks\nrank 0 key G B\nseal 0 G B pair G pair na date\nmark 1 set B G na date\nback 2 5 7 21 23 24 26\n",
            Expected::Completed,
        ),
        // No mark: the completion is positive.
        (
            "link sheet 1\nagents\nagent G\nagent B\ntexts\ntext date\nroles\nrole bus B\nvar t text\nfresh n\nsend pair self n\nrecv seal self G pair G pair n t\nsig set self G n t\nrole ground G\nvar j agent\nvar c nonce\nvar t text\nrecv pair j c\nsig told self j c t\nsend seal self j pair self pair c t\nnonces\nnonce na B bus n\nknown\nclaim\nholds set B G na date needs told G B na date\nranks\nrank 0 key G B\nseal 0 G B pair G pair na date\nback 2 5 7 21 23 24 26\n",
            Expected::Completed,
        ),
        // No seal line.
        (
            "link sheet 1\nagents\nagent G\nagent B\ntexts\ntext date\nroles\nrole bus B\nvar t text\nfresh n\nsend pair self n\nrecv seal self G pair G pair n t\nsig set self G n t\nrole ground G\nvar j agent\nvar c nonce\nvar t text\nrecv pair j c\nsig told self j c t\nsend seal self j pair self pair c t\nnonces\nnonce na B bus n\nknown\nclaim\nholds set B G na date needs told G B na date\nranks\nrank 0 key G B\nmark 0 set B G na date\nback 2 5 7 21 23 24 26\n",
            Expected::Acted(0, 2, 1, &[Some(Atom::Text(0)), Some(Atom::Nonce(0))]),
        ),
        // The key is told.
        (
            "link sheet 1\nagents\nagent G\nagent B\ntexts\ntext date\nroles\nrole bus B\nvar t text\nfresh n\nsend pair self n\nrecv seal self G pair G pair n t\nsig set self G n t\nrole ground G\nvar j agent\nvar c nonce\nvar t text\nrecv pair j c\nsig told self j c t\nsend seal self j pair self pair c t\nnonces\nnonce na B bus n\nknown\nknow key G B\nclaim\nholds set B G na date needs told G B na date\nranks\nrank 0 key G B\nseal 0 G B pair G pair na date\nmark 0 set B G na date\nback 2 5 7 21 23 25 27\n",
            Expected::Known(0),
        ),
        // A key in the other order is the same.
        (
            "link sheet 1\nagents\nagent G\nagent B\ntexts\ntext date\nroles\nrole bus B\nvar t text\nfresh n\nsend pair self n\nrecv seal self G pair G pair n t\nsig set self G n t\nrole ground G\nvar j agent\nvar c nonce\nvar t text\nrecv pair j c\nsig told self j c t\nsend seal self j pair self pair c t\nnonces\nnonce na B bus n\nknown\nclaim\nholds set B G na date needs told G B na date\nranks\nrank 0 key B G\nseal 0 G B pair G pair na date\nmark 0 set B G na date\nback 2 5 7 21 23 24 26\n",
            Expected::Accepted,
        ),
        // A key of one agent twice is told.
        (
            "link sheet 1\nagents\nagent G\nagent B\ntexts\ntext date\nroles\nrole bus B\nvar t text\nfresh n\nsend pair self n\nrecv seal self G pair G pair n t\nsig set self G n t\nrole ground G\nvar j agent\nvar c nonce\nvar t text\nrecv pair j c\nsig told self j c t\nsend seal self j pair self pair c t\nnonces\nnonce na B bus n\nknown\nknow key G G\nclaim\nholds set B G na date needs told G B na date\nranks\nrank 0 key G G\nrank 0 key G B\nseal 0 G B pair G pair na date\nmark 0 set B G na date\nback 2 5 7 21 23 25 27\n",
            Expected::Known(0),
        ),
        // A key of one agent twice, not positive and not known.
        (
            "link sheet 1\nagents\nagent G\nagent B\ntexts\ntext date\nroles\nrole bus B\nvar t text\nfresh n\nsend pair self n\nrecv seal self G pair G pair n t\nsig set self G n t\nrole ground G\nvar j agent\nvar c nonce\nvar t text\nrecv pair j c\nsig told self j c t\nsend seal self j pair self pair c t\nnonces\nnonce na B bus n\nknown\nclaim\nholds set B G na date needs told G B na date\nranks\nrank 0 key G G\nrank 0 key G B\nseal 0 G B pair G pair na date\nmark 0 set B G na date\nback 2 5 7 21 23 24 26\n",
            Expected::Accepted,
        ),
        // A key with an enemy's agent is not positive.
        (
            "link sheet 1\nagents\nagent G\nagent B\nagent E enemy\ntexts\ntext date\nroles\nrole bus B\nvar t text\nfresh n\nsend pair self n\nrecv seal self G pair G pair n t\nsig set self G n t\nrole ground G\nvar j agent\nvar c nonce\nvar t text\nrecv pair j c\nsig told self j c t\nsend seal self j pair self pair c t\nnonces\nnonce na B bus n\nknown\nclaim\nholds set B G na date needs told G B na date\nranks\nrank 0 key G E\nrank 0 key G B\nseal 0 G B pair G pair na date\nmark 0 set B G na date\nback 2 6 8 22 24 25 27\n",
            Expected::Ranked(0),
        ),
        // The same in the other order.
        (
            "link sheet 1\nagents\nagent G\nagent B\nagent E enemy\ntexts\ntext date\nroles\nrole bus B\nvar t text\nfresh n\nsend pair self n\nrecv seal self G pair G pair n t\nsig set self G n t\nrole ground G\nvar j agent\nvar c nonce\nvar t text\nrecv pair j c\nsig told self j c t\nsend seal self j pair self pair c t\nnonces\nnonce na B bus n\nknown\nclaim\nholds set B G na date needs told G B na date\nranks\nrank 0 key E G\nrank 0 key G B\nseal 0 G B pair G pair na date\nmark 0 set B G na date\nback 2 6 8 22 24 25 27\n",
            Expected::Ranked(0),
        ),
        // A second rank line is the bad one.
        (
            "link sheet 1\nagents\nagent G\nagent B\nagent E enemy\ntexts\ntext date\nroles\nrole bus B\nvar t text\nfresh n\nsend pair self n\nrecv seal self G pair G pair n t\nsig set self G n t\nrole ground G\nvar j agent\nvar c nonce\nvar t text\nrecv pair j c\nsig told self j c t\nsend seal self j pair self pair c t\nnonces\nnonce na B bus n\nknown\nclaim\nholds set B G na date needs told G B na date\nranks\nrank -3 na\nrank -7 key E E\nrank 0 key G B\nseal 0 G B pair G pair na date\nmark 0 set B G na date\nback 2 6 8 22 24 25 27\n",
            Expected::Ranked(1),
        ),
        // An enemy's agent is named before the honest ones.
        (
            "link sheet 1\nagents\nagent E enemy\nagent G\nagent B\ntexts\ntext date\nroles\nrole bus B\nvar t text\nfresh n\nsend pair self n\nrecv seal self G pair G pair n t\nsig set self G n t\nrole ground G\nvar j agent\nvar c nonce\nvar t text\nrecv pair j c\nsig told self j c t\nsend seal self j pair self pair c t\nnonces\nnonce na B bus n\nknown\nclaim\nholds set B G na date needs told G B na date\nranks\nrank 0 key G B\nseal 0 G B pair G pair na date\nmark 0 set B G na date\nback 2 6 8 22 24 25 27\n",
            Expected::Accepted,
        ),
        // The same, and the ground sends before it signals.
        (
            "link sheet 1\nagents\nagent E enemy\nagent G\nagent B\ntexts\ntext date\nroles\nrole bus B\nvar t text\nfresh n\nsend pair self n\nrecv seal self G pair G pair n t\nsig set self G n t\nrole ground G\nvar j agent\nvar c nonce\nvar t text\nrecv pair j c\nsend seal self j pair self pair c t\nsig told self j c t\nnonces\nnonce na B bus n\nknown\nclaim\nholds set B G na date needs told G B na date\nranks\nrank 0 key G B\nseal 0 G B pair G pair na date\nmark 0 set B G na date\nback 2 6 8 22 24 25 27\n",
            Expected::Acted(
                1,
                1,
                1,
                &[
                    Some(Atom::Agent(2)),
                    Some(Atom::Nonce(0)),
                    Some(Atom::Text(0)),
                ],
            ),
        ),
        // The second told line is the bad one.
        (
            "link sheet 1\nagents\nagent G\nagent B\ntexts\ntext date\nroles\nrole bus B\nvar t text\nfresh n\nsend pair self n\nrecv seal self G pair G pair n t\nsig set self G n t\nrole ground G\nvar j agent\nvar c nonce\nvar t text\nrecv pair j c\nsig told self j c t\nsend seal self j pair self pair c t\nnonces\nnonce na B bus n\nknown\nknow pair G date\nknow seal G B na\nclaim\nholds set B G na date needs told G B na date\nranks\nrank 0 key G B\nrank 0 na\nseal 0 G B na\nmark 0 set B G na date\nback 2 5 7 21 23 26 28\n",
            Expected::Known(1),
        ),
        // A nonce that is not positive is told.
        (
            "link sheet 1\nagents\nagent G\nagent B\ntexts\ntext date\nroles\nrole bus B\nvar t text\nfresh n\nsend pair self n\nrecv seal self G pair G pair n t\nsig set self G n t\nrole ground G\nvar j agent\nvar c nonce\nvar t text\nrecv pair j c\nsig told self j c t\nsend seal self j pair self pair c t\nnonces\nnonce na B bus n\nknown\nknow na\nclaim\nholds set B G na date needs told G B na date\nranks\nrank 0 na\nrank 0 key G B\nseal 0 G B pair G pair na date\nmark 0 set B G na date\nback 2 5 7 21 23 25 27\n",
            Expected::Known(0),
        ),
        // A nonce is not positive, and the bus sends it.
        (
            "link sheet 1\nagents\nagent G\nagent B\ntexts\ntext date\nroles\nrole bus B\nvar t text\nfresh n\nsend pair self n\nrecv seal self G pair G pair n t\nsig set self G n t\nrole ground G\nvar j agent\nvar c nonce\nvar t text\nrecv pair j c\nsig told self j c t\nsend seal self j pair self pair c t\nnonces\nnonce na B bus n\nknown\nclaim\nholds set B G na date needs told G B na date\nranks\nrank 0 na\nrank 0 key G B\nseal 0 G B pair G pair na date\nmark 0 set B G na date\nback 2 5 7 21 23 24 26\n",
            Expected::Acted(0, 0, 1, &[Some(Atom::Text(0)), Some(Atom::Nonce(0))]),
        ),
        // A text is not positive, and the ground sends it.
        (
            "link sheet 1\nagents\nagent G\nagent B\ntexts\ntext date\nroles\nrole bus B\nvar t text\nfresh n\nsend pair self n\nrecv seal self G pair G pair n t\nsig set self G n t\nrole ground G\nvar j agent\nvar c nonce\nvar t text\nrecv pair j c\nsig told self j c t\nsend seal self j pair self pair c t\nnonces\nnonce na B bus n\nknown\nclaim\nholds set B G na date needs told G B na date\nranks\nrank 0 date\nrank 0 key G B\nseal 0 G B pair G pair na date\nmark 0 set B G na date\nback 2 5 7 21 23 24 26\n",
            Expected::Acted(
                1,
                2,
                0,
                &[
                    Some(Atom::Agent(0)),
                    Some(Atom::Nonce(0)),
                    Some(Atom::Text(0)),
                ],
            ),
        ),
        // Two named nonces of one variable, of which the second is the order's.
        (
            "link sheet 1\nagents\nagent G\nagent B\ntexts\ntext date\nroles\nrole bus B\nvar t text\nfresh n\nsend pair self n\nrecv seal self G pair G pair n t\nsig set self G n t\nrole ground G\nvar j agent\nvar c nonce\nvar t text\nrecv pair j c\nsig told self j c t\nsend seal self j pair self pair c t\nnonces\nnonce nb B bus n\nnonce na B bus n\nknown\nclaim\nholds set B G na date needs told G B na date\nranks\nrank 0 key G B\nseal 0 G B pair G pair na date\nmark 0 set B G na date\nback 2 5 7 21 24 25 27\n",
            Expected::Accepted,
        ),
        // The same without a seal line.
        (
            "link sheet 1\nagents\nagent G\nagent B\ntexts\ntext date\nroles\nrole bus B\nvar t text\nfresh n\nsend pair self n\nrecv seal self G pair G pair n t\nsig set self G n t\nrole ground G\nvar j agent\nvar c nonce\nvar t text\nrecv pair j c\nsig told self j c t\nsend seal self j pair self pair c t\nnonces\nnonce nb B bus n\nnonce na B bus n\nknown\nclaim\nholds set B G na date needs told G B na date\nranks\nrank 0 key G B\nmark 0 set B G na date\nback 2 5 7 21 24 25 27\n",
            Expected::Acted(0, 2, 1, &[Some(Atom::Text(0)), Some(Atom::Nonce(1))]),
        ),
        // The needed event is one that no role signals.
        (
            "link sheet 1\nagents\nagent G\nagent B\ntexts\ntext date\nroles\nrole bus B\nvar t text\nfresh n\nsend pair self n\nrecv seal self G pair G pair n t\nsig set self G n t\nrole ground G\nvar j agent\nvar c nonce\nvar t text\nrecv pair j c\nsig told self j c t\nsend seal self j pair self pair c t\nnonces\nnonce na B bus n\nknown\nclaim\nholds set B G na date needs tell G B na date\nranks\nrank 0 key G B\nseal 0 G B pair G pair na date\nmark 0 set B G na date\nback 2 5 7 21 23 24 26\n",
            Expected::Acted(
                1,
                2,
                0,
                &[
                    Some(Atom::Agent(1)),
                    Some(Atom::Nonce(0)),
                    Some(Atom::Text(0)),
                ],
            ),
        ),
        // The needed event is signalled in the step itself.
        (
            "link sheet 1\nagents\nagent G\nagent B\ntexts\ntext date\nroles\nrole bus B\nvar t text\nfresh n\nsend pair self n\nrecv seal self G pair G pair n t\nsig set self G n t\nrole ground G\nvar j agent\nvar c nonce\nvar t text\nrecv pair j c\nsig told self j c t\nsend seal self j pair self pair c t\nnonces\nnonce na B bus n\nknown\nclaim\nholds set B G na date needs told G B na date\nranks\nrank 0 key G B\nseal 0 G B pair G pair na date\nmark 0 set B G na date\nmark 0 told G B na date\nback 2 5 7 21 23 24 26\n",
            Expected::Accepted,
        ),
        // Another event of the ground is not positive.
        (
            "link sheet 1\nagents\nagent G\nagent B\ntexts\ntext date\nroles\nrole bus B\nvar t text\nfresh n\nsend pair self n\nrecv seal self G pair G pair n t\nsig set self G n t\nrole ground G\nvar j agent\nvar c nonce\nvar t text\nrecv pair j c\nsig told self j c t\nsend seal self j pair self pair c t\nnonces\nnonce na B bus n\nknown\nclaim\nholds set B G na date needs told G B na date\nranks\nrank 0 key G B\nseal 0 G B pair G pair na date\nmark 0 set B G na date\nmark 0 told G B na B\nback 2 5 7 21 23 24 26\n",
            Expected::Accepted,
        ),
        // An event of another date is not positive.
        (
            "link sheet 1\nagents\nagent G\nagent B\ntexts\ntext date\ntext cold\nroles\nrole bus B\nvar t text\nfresh n\nsend pair self n\nrecv seal self G pair G pair n t\nsig set self G n t\nrole ground G\nvar j agent\nvar c nonce\nvar t text\nrecv pair j c\nsig told self j c t\nsend seal self j pair self pair c t\nnonces\nnonce na B bus n\nknown\nclaim\nholds set B G na date needs told G B na date\nranks\nrank 0 key G B\nseal 0 G B pair G pair na date\nmark 0 set B G na date\nmark -1 set B G na cold\nback 2 5 8 22 24 25 27\n",
            Expected::Acted(0, 2, 1, &[Some(Atom::Text(1)), Some(Atom::Nonce(0))]),
        ),
        // A role that nobody may play is never bad.
        (
            "link sheet 1\nagents\nagent E enemy\nagent F enemy\ntexts\ntext date\nroles\nrole r\nfresh n\nsend n\nnonces\nknown\nclaim\nholds x E needs y E\nranks\nmark 0 x E\nback 2 5 7 11 12 13 15\n",
            Expected::Accepted,
        ),
        // A line that is not positive over a content that is.
        (
            "link sheet 1\nagents\nagent A\nagent B\ntexts\ntext x\nroles\nrole r A\nvar p agent\nvar q agent\nsend seal self p pair p q\nnonces\nknown\nclaim\nholds done A needs begun A\nranks\nfree f agent\nfree g agent\nseal 0 A f pair g g\nmark 0 done A\nback 2 5 7 12 13 14 16\n",
            Expected::Sealed(0, &[Some(Atom::Agent(0)), Some(Atom::Agent(0))]),
        ),
        // Two different strangers are not alike.
        (
            "link sheet 1\nagents\nagent A\nagent B\ntexts\ntext x\nroles\nrole r A\nvar p agent\nvar q agent\nsend pair p q\nnonces\nknown\nclaim\nholds done A needs begun A\nranks\nmark 0 done A\nback 2 5 7 12 13 14 16\n",
            Expected::Accepted,
        ),
        // A line for any agent is bad under a positive key.
        (
            "link sheet 1\nagents\nagent A\nagent B\ntexts\ntext x\nroles\nrole r A\nvar p agent\nsend seal self p p\nnonces\nknown\nclaim\nholds done A needs begun A\nranks\nfree f agent\nrank 0 key A B\nseal 0 A f f\nmark 0 done A\nback 2 5 7 11 12 13 15\n",
            Expected::Sealed(0, &[Some(Atom::Agent(0))]),
        ),
        // Only a seal to B is not positive, under a key that is not.
        (
            "link sheet 1\nagents\nagent A\nagent B\ntexts\ntext x\nroles\nrole r A\nvar p agent\nsend seal self p x\nnonces\nknown\nclaim\nholds done A needs begun A\nranks\nrank 0 key A B\nseal 0 A B x\nmark 0 done A\nback 2 5 7 11 12 13 15\n",
            Expected::Acted(0, 0, 0, &[Some(Atom::Agent(1))]),
        ),
        // A first line takes some instances away.
        (
            "link sheet 1\nagents\nagent A\nagent B\ntexts\ntext x\nroles\nrole r A\nvar p agent\nsend seal self p pair p x\nnonces\nknown\nclaim\nholds done A needs begun A\nranks\nfree f agent\nrank 0 key A B\nseal 1 A B pair B x\nseal 0 A f pair f x\nmark 0 done A\nback 2 5 7 11 12 13 15\n",
            Expected::Sealed(1, &[Some(Atom::Agent(0))]),
        ),
        // The first line is for one that stands twice.
        (
            "link sheet 1\nagents\nagent A\nagent B\ntexts\ntext x\nroles\nrole r A\nvar p agent\nvar q agent\nsend seal self B pair p q\nnonces\nknown\nclaim\nholds done A needs begun A\nranks\nfree f agent\nfree g agent\nrank 0 key A B\nseal 1 A B pair f f\nseal 0 A B pair f g\nmark 0 done A\nback 2 5 7 12 13 14 16\n",
            Expected::Acted(0, 0, 0, &[Some(Atom::Agent(0)), Some(Atom::Agent(1))]),
        ),
        // Three, of which the first two lines want some alike.
        (
            "link sheet 1\nagents\nagent A\nagent B\ntexts\ntext x\nroles\nrole r A\nvar p agent\nvar q agent\nvar s agent\nsend seal self B pair p pair q s\nnonces\nknown\nclaim\nholds done A needs begun A\nranks\nfree f agent\nfree g agent\nfree h agent\nrank 0 key A B\nseal 1 A B pair f pair f g\nseal 1 A B pair f pair g f\nseal 1 A B pair f pair g g\nseal 0 A B pair f pair g h\nmark 0 done A\nback 2 5 7 13 14 15 17\n",
            Expected::Acted(
                0,
                0,
                0,
                &[
                    Some(Atom::Agent(0)),
                    Some(Atom::Agent(1)),
                    Some(Atom::Agent(2)),
                ],
            ),
        ),
        // The same, and no named one may stand there.
        (
            "link sheet 1\nagents\nagent A\nagent B\ntexts\ntext x\nroles\nrole r A\nvar p agent\nvar q agent\nvar s agent\nsend seal self B pair p pair q s\nnonces\nknown\nclaim\nholds done A needs begun A\nranks\nfree f agent\nfree g agent\nfree h agent\nrank 0 key A B\nseal 1 A B pair f pair f g\nseal 1 A B pair f pair g f\nseal 1 A B pair f pair g g\nseal 1 A B pair A pair f g\nseal 1 A B pair B pair f g\nseal 1 A B pair f pair A g\nseal 1 A B pair f pair B g\nseal 1 A B pair f pair g A\nseal 1 A B pair f pair g B\nseal 0 A B pair f pair g h\nmark 0 done A\nback 2 5 7 13 14 15 17\n",
            Expected::Acted(
                0,
                0,
                0,
                &[
                    Some(Atom::Agent(2)),
                    Some(Atom::Agent(3)),
                    Some(Atom::Agent(4)),
                ],
            ),
        ),
        // Two texts without a name that differ.
        (
            "link sheet 1\nagents\nagent A\nagent B\ntexts\ntext x\nroles\nrole r A\nvar p text\nvar q text\nsend seal self B pair p q\nnonces\nknown\nclaim\nholds done A needs begun A\nranks\nfree f text\nfree g text\nrank 0 key A B\nseal 1 A B pair f f\nseal 1 A B pair x f\nseal 1 A B pair f x\nseal 0 A B pair f g\nmark 0 done A\nback 2 5 7 12 13 14 16\n",
            Expected::Acted(0, 0, 0, &[Some(Atom::Text(1)), Some(Atom::Text(2))]),
        ),
        // A text equal to the other.
        (
            "link sheet 1\nagents\nagent A\nagent B\ntexts\ntext x\nroles\nrole r A\nvar p text\nvar q text\nsend seal self B pair p q\nnonces\nknown\nclaim\nholds done A needs begun A\nranks\nfree f text\nrank 0 key A B\nseal 1 A B pair x x\nseal 0 A B pair f f\nmark 0 done A\nback 2 5 7 12 13 14 16\n",
            Expected::Acted(0, 0, 0, &[Some(Atom::Text(1)), Some(Atom::Text(1))]),
        ),
        // A positive line over a content that is not, under a positive key.
        (
            "link sheet 1\nagents\nagent A\nagent B\ntexts\ntext x\nroles\nrole r A\nvar p agent\nsend p\nnonces\nknown\nclaim\nholds done A needs begun A\nranks\nrank 0 key A B\nseal 1 A A key A B\nmark 0 done A\nback 2 5 7 11 12 13 15\n",
            Expected::Sealed(0, &[]),
        ),
        // The same under a key that is not.
        (
            "link sheet 1\nagents\nagent A\nagent B\ntexts\ntext x\nroles\nrole r A\nvar p agent\nsend p\nnonces\nknown\nclaim\nholds done A needs begun A\nranks\nrank 0 key A B\nseal 1 A B key A B\nmark 0 done A\nback 2 5 7 11 12 13 15\n",
            Expected::Accepted,
        ),
        // A line of free variables, bad for a stranger alone.
        (
            "link sheet 1\nagents\nagent A\nagent B\ntexts\ntext x\nroles\nrole r A\nvar p agent\nsend p\nnonces\nknown\nclaim\nholds done A needs begun A\nranks\nfree f agent\nrank 0 key A B\nseal 1 A B x\nseal 0 A f x\nmark 0 done A\nback 2 5 7 11 12 13 15\n",
            Expected::Sealed(1, &[Some(Atom::Agent(0))]),
        ),
        // A line of free variables, bad for two strangers alone.
        (
            "link sheet 1\nagents\nagent A\nagent B\ntexts\ntext x\nroles\nrole r A\nvar p agent\nsend p\nnonces\nknown\nclaim\nholds done A needs begun A\nranks\nfree f agent\nfree g agent\nrank 0 key A B\nseal 1 A f pair g f\nseal 1 A f pair A g\nseal 1 A f pair B g\nseal 1 A f pair f g\nseal 0 A f pair f g\nseal 0 A f pair g A\nmark 0 done A\nback 2 5 7 11 12 13 15\n",
            Expected::Sealed(5, &[Some(Atom::Agent(2)), Some(Atom::Agent(3))]),
        ),
        // Nested seals.
        (
            "link sheet 1\nagents\nagent A\nagent B\ntexts\ntext x\nroles\nrole r A\nvar p agent\nsend seal self B seal self p x\nnonces\nknown\nclaim\nholds done A needs begun A\nranks\nfree f agent\nrank 0 key A B\nrank 0 key A A\nseal 0 A B seal A f x\nmark 0 done A\nback 2 5 7 11 12 13 15\n",
            Expected::Acted(0, 0, 0, &[Some(Atom::Agent(0))]),
        ),
        // A seal in a seal, of which the inner one is not positive.
        (
            "link sheet 1\nagents\nagent A\nagent B\ntexts\ntext x\nroles\nrole r A\nvar p agent\nsend seal self p seal self p x\nnonces\nknown\nclaim\nholds done A needs begun A\nranks\nfree f agent\nrank 0 key A B\nseal 0 A B x\nseal 1 A f seal A f x\nmark 0 done A\nback 2 5 7 11 12 13 15\n",
            Expected::Accepted,
        ),
        // Broken at the third step alone.
        (
            "link sheet 1\nagents\nagent A\nagent B\ntexts\ntext x\nroles\nrole r A\nvar p agent\nsend p\nsend pair p p\nsend seal self B p\nnonces\nknown\nclaim\nholds done A needs begun A\nranks\nfree f agent\nrank 0 key A B\nseal 0 A B f\nmark 0 done A\nback 2 5 7 13 14 15 17\n",
            Expected::Acted(0, 2, 0, &[Some(Atom::Agent(0))]),
        ),
        // Broken at the second step for a greater agent, at the third for the least.
        (
            "link sheet 1\nagents\nagent A\nagent B\ntexts\ntext x\nroles\nrole r A\nvar p agent\nsend p\nsend seal self B pair p x\nsend seal self B p\nnonces\nknown\nclaim\nholds done A needs begun A\nranks\nfree f agent\nrank 0 key A B\nseal 0 A B pair B x\nseal 0 A B f\nmark 0 done A\nback 2 5 7 13 14 15 17\n",
            Expected::Acted(0, 1, 0, &[Some(Atom::Agent(1))]),
        ),
        // Received what is not positive first.
        (
            "link sheet 1\nagents\nagent A\nagent B\ntexts\ntext x\nroles\nrole r A\nvar p agent\nrecv seal self B p\nsend seal self B p\nnonces\nknown\nclaim\nholds done A needs begun A\nranks\nfree f agent\nrank 0 key A B\nseal 0 A B f\nmark 0 done A\nback 2 5 7 12 13 14 16\n",
            Expected::Accepted,
        ),
        // A fresh nonce with a name, sealed.
        (
            "link sheet 1\nagents\nagent A\nagent B\ntexts\ntext x\nroles\nrole r A\nfresh n\nsend seal self B n\nnonces\nnonce na A r n\nnonce nb A r n\nknown\nclaim\nholds done A needs begun A\nranks\nrank 0 key A B\nseal 0 A B na\nmark 0 done A\nback 2 5 7 11 14 15 17\n",
            Expected::Acted(0, 0, 0, &[Some(Atom::Nonce(0))]),
        ),
        // A fresh nonce whose second name is bad.
        (
            "link sheet 1\nagents\nagent A\nagent B\ntexts\ntext x\nroles\nrole r A\nfresh n\nsend seal self B n\nnonces\nnonce na A r n\nnonce nb A r n\nknown\nclaim\nholds done A needs begun A\nranks\nrank 0 key A B\nseal 0 A B nb\nmark 0 done A\nback 2 5 7 11 14 15 17\n",
            Expected::Acted(0, 0, 0, &[Some(Atom::Nonce(1))]),
        ),
        // Any honest agent may play.
        (
            "link sheet 1\nagents\nagent A\nagent B\ntexts\ntext x\nroles\nrole r\nvar p agent\nsend seal self p x\nnonces\nknown\nclaim\nholds done A needs begun A\nranks\nrank 0 key A B\nrank 0 key B B\nseal 0 B B x\nmark 0 done A\nback 2 5 7 11 12 13 15\n",
            Expected::Acted(0, 0, 1, &[Some(Atom::Agent(1))]),
        ),
        // The second honest agent is the least.
        (
            "link sheet 1\nagents\nagent E enemy\nagent A\nagent B\nagent C\ntexts\ntext x\nroles\nrole r\nvar p agent\nsend seal self p x\nnonces\nknown\nclaim\nholds done A needs begun A\nranks\nrank 0 key B C\nseal 0 B C x\nmark 0 done A\nback 2 7 9 13 14 15 17\n",
            Expected::Acted(0, 0, 2, &[Some(Atom::Agent(3))]),
        ),
    ];

    fn is_as_expected(verdict: &Verdict, expected: Expected) -> bool {
        match (verdict, expected) {
            (Verdict::Accepted, Expected::Accepted) | (Verdict::Completed, Expected::Completed) =>
                true,
            (Verdict::Known { line }, Expected::Known(other))
            | (Verdict::Ranked { line }, Expected::Ranked(other)) => *line == other,
            (Verdict::Sealed { line, values }, Expected::Sealed(other, atoms)) => {
                *line == other && values.as_slice() == atoms
            }
            (
                Verdict::Acted {
                    role,
                    step,
                    agent,
                    values,
                },
                Expected::Acted(other, at, who, atoms),
            ) => *role == other && *step == at && *agent == who && values.as_slice() == atoms,
            _ => false,
        }
    }

    #[test]
    fn answers_each_case(rt: HostRuntime) -> Result<(), Fail> {
        let mut sheet = Sheet::new(rt.alloc());
        for (i, (text, expected)) in CASES.iter().enumerate() {
            sheet.read(text.as_bytes())?;
            let verdict = check::<Whole>(rt.alloc(), &sheet)?;
            assert!(rt; is_as_expected(&verdict, *expected), "{}", i);
        }
        Ok(())
    }

    #[test]
    fn declines_what_it_cannot_check(rt: HostRuntime) -> Result<(), Fail> {
        let mut sheet = Sheet::new(rt.alloc());
        let unread = check::<Whole>(rt.alloc(), &sheet);
        assert!(rt; matches!(unread, Err(Unchecked::Unread)));
        assert_eq!(rt; Unchecked::Unread.number(), Some(20));
        // The silence order, with a value that the scale of two has not.
        sheet.read(
            "link sheet 1\nagents\nagent G\nagent B\ntexts\ntext date\nroles\nrole bus B\nvar t text\nfresh n\nsend pair self n\nrecv seal self G pair G pair n t\nsig set self G n t\nrole ground G\nvar j agent\nvar c nonce\nvar t text\nrecv pair j c\nsig told self j c t\nsend seal self j pair self pair c t\nnonces\nnonce na B bus n\nknown\nclaim\nholds set B G na date needs told G B na date\nranks\nrank 0 key G B\nseal 0 G B pair G pair na date\nmark -1 set B G na date\nback 2 5 7 21 23 24 26\n".as_bytes(),
        )?;
        let lacking = check::<TwoValued>(rt.alloc(), &sheet);
        assert!(rt; matches!(lacking, Err(Unchecked::Lacking)));
        assert_eq!(rt; Unchecked::Lacking.number(), Some(21));
        Ok(())
    }
}
