//! The INF of the test miniports: examples/miniport.inf.

/// The text.
pub const INF: &[u8] = b"\
; The INF of the test miniports that `forge` writes. They have no hardware, and read no parameter:
; what stands here is what a driver for an ISA NE2000 would be given.
[Version]
Signature=\"$Windows NT$\"
Class=Net
ClassGUID={4D36E972-E325-11CE-BFC1-08002BE10318}
Provider=%Maker%

[Manufacturer]
%Maker%=Models

[Models]
%Miniport%=Miniport.Install, *PNP80D6

[Miniport.Install]
AddReg=Miniport.Parameters

; BusType 1 is NdisInterfaceIsa; port and interrupt have defaults
[Miniport.Parameters]
HKR,,BusType,0,\"1\"
HKR,Ndi\\params\\IoBaseAddress,default,0,\"300\"
HKR,Ndi\\params\\InterruptNumber,default,0,\"5\"

[Strings]
Maker=\"Hedzvaki\"
Miniport=\"Test miniport\"
";
