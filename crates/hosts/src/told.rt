// Each answer as a host is told it: 0 and its values, or a refusal's number and zeros.
ghost use Rattle.std.specs.Prelude.{◌≡◌};
ghost use Rattle.hosts.specs.Told.{reply_told};

use crate::values::{
    AtlasHeader, HostArea, HostBatched, HostCount, HostCreated, HostExtent, HostGrant, HostLoaded,
    HostSaved, HostVacancy,
};
use numbers::refusal::Refusal;
use promises::answers::{Answered, Sides};
use rows::live::Live;

impl From<Result<Live, Refusal>> for HostGrant {
    ghost use Rattle.std.specs.Prelude.{◌≡◌};
    ghost use Rattle.hosts.specs.Told.{grant_told};

    ghost from_gives = { λ answer told. told ≡ grant_told answer };

    fn from(answer: Result<Live, Refusal>) -> HostGrant {
        match answer {
            Ok(l) => HostGrant {
                answer: 0,
                row: l.row as u32,
                generation: l.generation as u32,
                x0: l.x0 as u32,
                y0: l.y0 as u32,
                x1: l.x1 as u32,
                y1: l.y1 as u32,
            },
            Err(refusal) => HostGrant {
                answer: refusal.number() as u32,
                ..HostGrant::default()
            },
        }
    }
}

pub fn reply_told(answer: Result<(), Refusal>) -> u32
    ensures { result ≡ reply_told answer }
{
    match answer {
        Ok(()) => 0,
        Err(refusal) => refusal.number() as u32,
    }
}

impl From<Result<u16, Refusal>> for HostCount {
    ghost use Rattle.std.specs.Prelude.{◌≡◌};
    ghost use Rattle.hosts.specs.Told.{count_told};

    ghost from_gives = { λ answer told. told ≡ count_told answer };

    fn from(answer: Result<u16, Refusal>) -> HostCount {
        match answer {
            Ok(n) => HostCount {
                answer: 0,
                count: n as u32,
            },
            Err(refusal) => HostCount {
                answer: refusal.number() as u32,
                ..HostCount::default()
            },
        }
    }
}

impl From<Result<u32, Refusal>> for HostArea {
    ghost use Rattle.std.specs.Prelude.{◌≡◌};
    ghost use Rattle.hosts.specs.Told.{area_told};

    ghost from_gives = { λ answer told. told ≡ area_told answer };

    fn from(answer: Result<u32, Refusal>) -> HostArea {
        match answer {
            Ok(area) => HostArea { answer: 0, area },
            Err(refusal) => HostArea {
                answer: refusal.number() as u32,
                ..HostArea::default()
            },
        }
    }
}

impl From<Result<Sides, Refusal>> for HostExtent {
    ghost use Rattle.std.specs.Prelude.{◌≡◌};
    ghost use Rattle.hosts.specs.Told.{extent_told};

    ghost from_gives = { λ answer told. told ≡ extent_told answer };

    fn from(answer: Result<Sides, Refusal>) -> HostExtent {
        match answer {
            Ok(sides) => HostExtent {
                answer: 0,
                width: sides.width as u32,
                height: sides.height as u32,
            },
            Err(refusal) => HostExtent {
                answer: refusal.number() as u32,
                ..HostExtent::default()
            },
        }
    }
}

impl From<Result<bool, Refusal>> for HostVacancy {
    ghost use Rattle.std.specs.Prelude.{◌≡◌};
    ghost use Rattle.hosts.specs.Told.{vacancy_told};

    ghost from_gives = { λ answer told. told ≡ vacancy_told answer };

    fn from(answer: Result<bool, Refusal>) -> HostVacancy {
        match answer {
            Ok(vacant) => HostVacancy {
                answer: 0,
                vacant: vacant as u32,
            },
            Err(refusal) => HostVacancy {
                answer: refusal.number() as u32,
                ..HostVacancy::default()
            },
        }
    }
}

impl From<Result<u32, Refusal>> for HostSaved {
    ghost use Rattle.std.specs.Prelude.{◌≡◌};
    ghost use Rattle.hosts.specs.Told.{saved_told};

    ghost from_gives = { λ answer told. told ≡ saved_told answer };

    fn from(answer: Result<u32, Refusal>) -> HostSaved {
        match answer {
            Ok(length) => HostSaved { answer: 0, length },
            Err(refusal) => HostSaved {
                answer: refusal.number() as u32,
                ..HostSaved::default()
            },
        }
    }
}

impl From<Answered<u16>> for HostCreated {
    ghost use Rattle.std.specs.Prelude.{◌≡◌};
    ghost use Rattle.hosts.specs.Values.{host_header};
    ghost use Rattle.hosts.specs.Told.{created_told};

    ghost from_gives = { λ said told. told ≡ created_told said.answer (host_header said.header) };

    fn from(said: Answered<u16>) -> HostCreated {
        let header = AtlasHeader::from(said.header);
        match said.answer {
            Ok(columns) => HostCreated {
                answer: 0,
                columns: columns as u32,
                header,
            },
            Err(refusal) => HostCreated {
                answer: refusal.number() as u32,
                columns: 0,
                header,
            },
        }
    }
}

impl From<Answered<()>> for HostLoaded {
    ghost use Rattle.std.specs.Prelude.{◌≡◌};
    ghost use Rattle.hosts.specs.Values.{host_header};
    ghost use Rattle.hosts.specs.Told.{reply_told};

    ghost from_gives = { λ said told. told ≡ record { answer = reply_told said.answer; header = host_header said.header } };

    fn from(said: Answered<()>) -> HostLoaded {
        HostLoaded {
            answer: reply_told(said.answer),
            header: AtlasHeader::from(said.header),
        }
    }
}

impl From<Answered<u16>> for HostBatched {
    ghost use Rattle.std.specs.Prelude.{◌≡◌};
    ghost use Rattle.hosts.specs.Values.{host_header};
    ghost use Rattle.hosts.specs.Told.{batch_told};

    ghost from_gives = { λ said told. told ≡ batch_told said.answer (host_header said.header) };

    fn from(said: Answered<u16>) -> HostBatched {
        let header = AtlasHeader::from(said.header);
        match said.answer {
            Ok(served) => HostBatched {
                answer: 0,
                count: served as u32,
                header,
            },
            Err(refusal) => HostBatched {
                answer: refusal.number() as u32,
                count: 0,
                header,
            },
        }
    }
}
