use crate::files::{A, PNP80D6, gives, number_of, refuses, rows_give, rows_refuse, with_rows};
use inf_file::ParamRefusal;
use std::alloc::Global;

#[test]
fn hardware_ids_have_no_case(rt: HostRuntime) {
    let small = [42, 112, 110, 112, 56, 48, 100, 54];
    match with_rows(rt.alloc(), "HKR,,A,,1\n") {
        Some(text) => {
            assert!(rt; gives(rt.alloc(), text.as_slice(), &PNP80D6, "A=1;"));
            assert!(rt; gives(rt.alloc(), text.as_slice(), &small, "A=1;"));
            assert!(rt; refuses(rt.alloc(), text.as_slice(), &A, ParamRefusal::NoModel));
        }
        None => assert!(rt; false),
    }
}

#[test]
fn refusals_in_order(rt: HostRuntime) {
    let text = b"[Version]\nSignature=$Windows CE$\n".as_slice();
    assert!(rt; refuses(rt.alloc(), text, &A, ParamRefusal::NoVersion));
    let text = b"[Version]\nSignature=x\n[version]\nSIGNATURE=$chicago$\n".as_slice();
    assert!(rt; refuses(rt.alloc(), text, &A, ParamRefusal::NoModel));
    let text =
        b"[version]\nSignature=$Windows NT$\n[manufacturer]\nModels\n[Models]\n%I%,*B,*A\n".as_slice();
    assert!(rt; refuses(rt.alloc(), text, &A, ParamRefusal::NoInstall));
    let text =
        b"[version]\nSignature=$Windows 95$\n[manufacturer]\nModels\n[Models]\n%I%,*B,*A\n[Strings]\ni=Here\n[HERE]\nCopyFiles=%Files%\n".as_slice();
    assert!(rt; gives(rt.alloc(), text, &A, ""));
}

/// A file without a model of `*A`. With any one allocation refused, it is refused as that.
#[test]
fn no_model_without_memory(rt: HostRuntime) {
    let text =
        b"[Version]\nSignature=$Windows NT$\n[Strings]\nM=Mo\nD=NTx86\nId=*B\n[Manufacturer]\nAcme=%M%d,%D%.5,%D%\n[Mod]\nInst,*A\n[mod.ntX86]\nInst,%Id%,%gone%,*C\n[Inst]\n".as_slice();
    assert!(rt; refuses(rt.alloc(), text, &A, ParamRefusal::NoModel));
}

/// A file whose model of `*A` has no install section. With any one allocation refused, it is refused
/// as that.
#[test]
fn no_install_without_memory(rt: HostRuntime) {
    let text =
        b"[Version]\nSignature=$Windows NT$\n[Strings]\nM=Mo\nD=NTx86\nId=a\n[Manufacturer]\nAcme=%M%d,%D%.5,%D%\n[Mod]\nInst,*B\n[mod.ntX86]\nIn%M%,%%,*%ID%\n[Inst]\n[In.NT]\n".as_slice();
    assert!(rt; refuses(rt.alloc(), text, &A, ParamRefusal::NoInstall));
}

#[test]
fn the_closest_section_first(rt: HostRuntime) {
    let text =
        b"[Version]\nSignature=$Windows 95$\n[Manufacturer]\nAcme=Models\n[Models]\nPlain,*A\n[Models.NT]\nNt,*A\n[Nt]\nAddReg=R1\n[Nt.nt]\nAddReg=R2,Absent\n[R1]\nHKR,,From,,plain\n[R2]\nHKR,,From,,nt\n[R3]\nHKR,,From,,ntx86\n".as_slice();
    assert!(rt; gives(rt.alloc(), text, &A, "From=nt;"));
    let text =
        b"[Version]\nSignature=$Windows 95$\n[Manufacturer]\nAcme=Models\n[Models.NT]\nNt,*A\n[Nt.nt]\nAddReg=R2\n[R2]\nHKR,,From,,nt\n[R3]\nHKR,,From,,ntx86\n[Nt.NTX86]\nAddReg=R3\n".as_slice();
    assert!(rt; gives(rt.alloc(), text, &A, "From=ntx86;"));
    let text =
        b"[Version]\nSignature=$Windows 95$\n[Manufacturer]\nAcme=Models\n[Models.NT]\nNt,*A\n[Nt]\n[Models.NTx86]\nNone,*A\n".as_slice();
    assert!(rt; refuses(rt.alloc(), text, &A, ParamRefusal::NoInstall));
}

#[test]
fn listed_decorations(rt: HostRuntime) {
    let text =
        b"[Version]\nSignature=$Windows 95$\n[Manufacturer]\nAcme=M,NTamd64,NTx86.5.1\n[M.NTamd64]\nOther,*A\n[M.NTx86]\nOther,*A\n[M.ntx86.5.1]\nInst,*A\n[Inst]\nAddReg=R\n".as_slice();
    assert!(rt; gives(rt.alloc(), text, &A, ""));
}

/// Of two models lines the first of the file counts, whatever manufacturer comes first.
#[test]
fn the_first_model_line(rt: HostRuntime) {
    let text =
        b"[Version]\nSignature=$Windows 95$\n[Manufacturer]\nB=B\nA=A\n[A]\nOne,*A\n[B]\nTwo,*A\n[One]\nAddReg=R\n[Two]\n[R]\nHKR,,N,,1\n".as_slice();
    assert!(rt; gives(rt.alloc(), text, &A, "N=1;"));
}

#[test]
fn rows_and_defaults(rt: HostRuntime) {
    let rows = "HKR,ndi\\PARAMS\\b,Default,00,never
x=hkr,,Port,0,300
HKR,,B,0x0,1
HKR,,PORT,0,800
HKR,,C,0x10000,1
HKLM,,D,0,1
HKR,Ndi\\params\\e\\f,default,0,first
HKR,Ndi\\params\\E\\F,default,0,second
HKR,Ndi\\params\\g,default,,empty
";
    assert!(rt; rows_give(rt.alloc(), rows, "Port=800;B=1;e\\f=first;"));
}

/// A section that is named twice is read twice: its value comes last again.
#[test]
fn a_section_twice(rt: HostRuntime) {
    let rows =
        "HKR,,A,,1\nHKR,,C,,1\n[Other]\nHKR,,B,,2\nHKR,,a,,2\n[Ne.Inst]\nAddReg=Other,Ne.Reg,None\n";
    assert!(rt; rows_give(rt.alloc(), rows, "A=1;C=1;B=2;"));
}

#[test]
fn strings_that_are_missing(rt: HostRuntime) {
    for (rows, want) in [
        ("HKR,,N,0x10001,%none%\n", ParamRefusal::NoString(13)),
        (
            "HKR,,N,0x10001,no\nHKR,,N,0x10001,%none%\n",
            ParamRefusal::NoString(14),
        ),
        (
            "HKR,,N,0x10001,no\nHKR,,N,0x10001,%none%\n[Strings]\nNone=7\n",
            ParamRefusal::BadValue(13),
        ),
        (
            "HKR,,N,0x10001,no\n[Ne.Inst]\nAddReg=%gone%\n",
            ParamRefusal::NoString(15),
        ),
        ("[Manufacturer]\n%gone%=%12%\n", ParamRefusal::NoString(14)),
    ] {
        assert!(rt; rows_refuse(rt.alloc(), rows, want));
    }
    assert!(rt; rows_give(rt.alloc(), "[Models]\n%gone%=Ne.Inst,*PNP80D6\n", ""));
}

#[test]
fn replacement(rt: HostRuntime) {
    let rows = "HKR,,N,,\"1%%2%a%3%m%%12%4% 5\"\n[Strings]\nA=%M%\na=second\n";
    assert!(rt; rows_give(rt.alloc(), rows, "N=1%2%M%3Acme%12%4% 5;"));
}

/// What becomes of a number.
fn number(alloc: Global, rows: &str) -> Option<u32> {
    match with_rows(alloc, rows) {
        Some(text) => number_of(alloc, text.as_slice()),
        None => None,
    }
}

#[test]
fn numbers(rt: HostRuntime) {
    for (row, want) in [
        ("HKR,,N,0x00010001,0xffffFFFF\n", 4_294_967_295),
        ("HKR,,N,65537,007\n", 7),
        ("HKR,,N,0x010001,4294967295\n", 4_294_967_295),
        ("HKR,,N,0x00010001,0x320\n", 800),
    ] {
        assert!(rt; number(rt.alloc(), row) == Some(want));
    }
}

#[test]
fn no_numbers(rt: HostRuntime) {
    for row in [
        "HKR,,N,0x00010001,4294967296\n",
        "HKR,,N,0x00010001,0x\n",
        "HKR,,N,0x00010001,0X1\n",
        "HKR,,N,0x00010001,\n",
        "HKR,,N,0x00010001,-1\n",
    ] {
        assert!(rt; rows_refuse(rt.alloc(), row, ParamRefusal::BadValue(13)));
    }
}

fn says(alloc: Global, refusal: ParamRefusal, want: &str) -> bool {
    match format!(in alloc; "{refusal}") {
        Ok(text) => text.as_str() == want,
        Err(_) => false,
    }
}

#[test]
fn refusals_have_texts(rt: HostRuntime) {
    for (refusal, want) in [
        (ParamRefusal::OutOfMemory, "out of memory"),
        (
            ParamRefusal::NoVersion,
            "the INF has no signature of Windows",
        ),
        (
            ParamRefusal::NoModel,
            "the INF has no model of the hardware id",
        ),
        (
            ParamRefusal::NoInstall,
            "the INF has no install section of the model",
        ),
        (
            ParamRefusal::NoString(12),
            "line 12 of the INF has a key that is not in its strings",
        ),
        (
            ParamRefusal::BadValue(7),
            "line 7 of the INF has no number as its value",
        ),
    ] {
        assert!(rt; says(rt.alloc(), refusal, want));
    }
}
